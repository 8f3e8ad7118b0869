// The fields of a plan.
ghost use Rattle.text.specs.Kinds.{plan_kind};

use crate::field::Kinds;
use model::bounds::{MEMBERS, RANGES};
use model::refusal::Refusal;

/// What a field of a plan is about.
#[derive(Clone, Copy, Debug, PartialEq, Eq, Hash)]
pub enum PlanKind {
    Head,
    Positions,
    Rule(RuleKind),
    End,
}

/// Which rule a field has.
#[derive(Clone, Copy, Debug, PartialEq, Eq, Hash)]
pub enum RuleKind {
    Offset,
    Near,
    NotAbove,
    Total,
}

// kept: `as` here and below, since a constant is made of a constant, where `TryFrom` cannot be called.
/// The longest payload of Positions: a gate, and a first and a last position for each range.
const POSITIONS_LEN: u16 = 1 + 2 * RANGES as u16;
/// The longest payload of Total: low and high, and a gate and a weight for each member.
const TOTAL_LEN: u16 = 8 + 2 * MEMBERS as u16;

impl Kinds for PlanKind {
    ghost made = { plan_kind };

    fn of(tag: u8, len: u16, left: usize) -> Result<PlanKind, Refusal> {
        // kept: the bytes left are a guard of this one match, so that refusals 1, 2 and 3 and their order stand in one place.
        match (tag, len) {
            _ if left < usize::from(len) => Err(Refusal::Truncated),
            (0x01, 3) => Ok(PlanKind::Head),
            (0x02, 1..=POSITIONS_LEN) if len % 2 == 1 => Ok(PlanKind::Positions),
            (0x03, 4) => Ok(PlanKind::Rule(RuleKind::Offset)),
            (0x04, 3) => Ok(PlanKind::Rule(RuleKind::Near)),
            (0x05, 4) => Ok(PlanKind::Rule(RuleKind::NotAbove)),
            (0x06, 10..=TOTAL_LEN) if len % 2 == 0 => Ok(PlanKind::Rule(RuleKind::Total)),
            (0x07, 0) => Ok(PlanKind::End),
            (0x01..=0x07, _) => Err(Refusal::BadLength),
            _ => Err(Refusal::UnknownTag),
        }
    }
}
