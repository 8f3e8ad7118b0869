// The fields of calls.
ghost use Rattle.console.specs.Calls.{call_kind};

use model::refusal::Refusal;
use text::field::Kinds;

/// What a call field is about. No call is known yet.
pub enum CallKind {}

impl Kinds for CallKind {
    ghost made = { call_kind };

    fn of(tag: u8, len: u16, left: usize) -> Result<CallKind, Refusal> {
        // kept: the bytes left are a guard of this one match, so that refusals 1, 2 and 3 and their order stand in one place.
        match (tag, len) {
            _ if left < usize::from(len) => Err(Refusal::Truncated),
            _ => Err(Refusal::UnknownTag),
        }
    }
}
