// One field of a text, of any set of kinds.
ghost use Rattle.std.specs.Prelude.{◌≡◌, ℕ, Result as ResultOf};
ghost use Rattle.text.specs.Lengths.{with_payload};
ghost use Rattle.model.specs.declared.refusal.Refusal.{Refusal as RefusalOf};

use crate::fault::Fault;
use model::refusal::Refusal;

/// What fields are about. A tag and a length decide it.
pub trait Kinds: Sized {
    // the kind that a tag and a length make, or why they make none
    ghost made: { ℕ → ℕ → ResultOf Self RefusalOf };

    // What tag and length make, where so many bytes are left behind them: refusal 1, 2 or 3, in that order.
    fn of(tag: u8, len: u16, left: usize) -> Result<Self, Refusal>
        ensures { result ≡ with_payload made tag len left };
}

/// What a field is about, where its tag stands, and its payload.
#[derive(Debug, PartialEq, Eq, Hash, Drop)]
pub struct Field<'a, K> {
    pub kind: K,
    pub place: usize,
    pub payload: &'a [u8],
}

impl<'a, K> Field<'a, K> {
    /// The fault of being refused, told at the field's place.
    pub fn fault(&self, refusal: Refusal) -> Fault
        ensures { result ≡ record { refusal = refusal; place = self.now.place } }
    {
        Fault {
            refusal,
            place: self.place,
        }
    }
}
