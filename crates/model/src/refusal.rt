// Why something is refused, in the order of the numbers that are told.
ghost use Rattle.std.specs.Prelude.{◌≡◌, Some, decimal};
ghost use Rattle.model.specs.Refusals.{number_of};

use std::error::Error;
use std::fmt;

#[derive(Clone, Copy, Debug, PartialEq, Eq, Hash)]
pub enum Refusal {
    /// Fewer than three bytes are left, or less payload than the length says.
    Truncated = 1,
    /// The tag is unknown.
    UnknownTag = 2,
    /// The length is not one that the tag allows.
    BadLength = 3,
    /// The first field is not Head, or a second Head, or a gate's second Positions.
    Misplaced = 4,
    /// A number of a field is out of range, or its numbers do not go together.
    OutOfRange = 5,
    /// A rule more than a plan holds.
    TooManyRules = 6,
    /// The store cannot take so many gates and positions.
    NoRoom = 7,
    /// No plan is loaded.
    NoPlan = 8,
    /// There is no such gate.
    NoGate = 9,
    /// There is no such position.
    NoPosition = 10,
    /// A save more than may be open.
    TooManySaves = 11,
    /// No save is open.
    NoSave = 12,
    /// There is no such reader.
    NoReader = 13,
    /// The caller's list is shorter than the answer.
    ListTooShort = 14,
}

impl Refusal {
    /// The number that is told.
    pub fn number(self) -> u8
        ensures { result ≡ number_of self }
    {
        self as u8
    }
}

/// A refusal is told by its number.
impl fmt::Display for Refusal {
    ghost output = { λ x. Some (decimal (number_of x)) };

    fn fmt<W: fmt::Write>(&self, f: &mut fmt::Formatter<W>) -> fmt::Result {
        write!(f, "{}", self.number())
    }
}

impl Error for Refusal {}
