// Where a text goes wrong.
ghost use Rattle.std.specs.Prelude.{Some};
ghost use Rattle.text.specs.Faults.{fault_text};

use model::refusal::Refusal;
use std::error::Error;
use std::fmt;

/// Why a text is refused, and where: the offset of the field's tag from the start of the text.
#[derive(Clone, Copy, Debug, PartialEq, Eq, Hash)]
pub struct Fault {
    pub refusal: Refusal,
    pub place: usize,
}

/// A fault is told by its refusal's number and its place.
impl fmt::Display for Fault {
    ghost output = { λ e. Some (fault_text e) };

    fn fmt<W: fmt::Write>(&self, f: &mut fmt::Formatter<W>) -> fmt::Result {
        write!(f, "{} at {}", self.refusal, self.place)
    }
}

impl Error for Fault {}
