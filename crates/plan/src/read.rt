// The reading of a plan.
use crate::Plan;

mod fields;

pub use fields::read_plan;

/// A plan, and how many bytes of the text it took.
#[derive(Clone, Copy, Debug)]
pub struct Loaded {
    pub plan: Plan,
    pub read: usize,
}
