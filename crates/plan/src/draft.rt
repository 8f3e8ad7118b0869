// A plan under way: some of its fields are taken.
use crate::Plan;
use model::bounds::GATES;

mod take;

pub(crate) use take::judge;

/// The plan of the fields so far, and the gates whose positions were listed.
#[derive(Clone, Copy)]
pub(crate) struct Draft {
    pub(crate) plan: Plan,
    // kept: beside the plan's rows of starts, since the plan is handed out as it stands and has no use for it.
    listed: [bool; GATES],
}
