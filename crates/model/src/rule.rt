// The rules of a plan, as the code holds them.
pub mod member;
pub mod members;
pub mod pair;

use members::Members;
use pair::{Near, NotAbove, Offset};

/// The members' shares, weight times position, sum to at least `low` and at most `high`.
#[derive(Clone, Copy, Debug)]
pub struct Total {
    pub low: u32,
    pub high: u32,
    pub members: Members,
}

/// A rule of a plan.
#[derive(Clone, Copy, Debug)]
pub enum Rule {
    Offset(Offset),
    Near(Near),
    NotAbove(NotAbove),
    Total(Total),
}
