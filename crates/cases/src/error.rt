// Why a line is no case.
ghost use Rattle.std.specs.Prelude.{◌≡◌};
ghost use Rattle.cases.specs.Errors.{error_of};
ghost use Rattle.cases.specs.declared.error.CaseError.TheVariants.{OutOfMemory};

use hex::FromHexError;
use std::alloc::AllocError;
use std::error::Error;
use std::fmt;

#[derive(Clone, Copy, Debug, PartialEq, Eq, Hash)]
pub enum CaseError {
    /// No space stands behind a name.
    NoName,
    /// A part of the input is not hexadecimal.
    NotHexadecimal,
    /// There was no memory for the input.
    OutOfMemory,
}

impl fmt::Display for CaseError {
    fn fmt<W: fmt::Write>(&self, f: &mut fmt::Formatter<W>) -> fmt::Result {
        match self {
            CaseError::NoName => write!(f, "a case has a name and an input"),
            CaseError::NotHexadecimal => write!(f, "an input is hexadecimal"),
            CaseError::OutOfMemory => write!(f, "memory allocation failed"),
        }
    }
}

impl Error for CaseError {}

impl From<AllocError> for CaseError {
    ghost from_gives = { λ _ e. e ≡ OutOfMemory };

    fn from(_e: AllocError) -> Self {
        Self::OutOfMemory
    }
}

impl From<FromHexError> for CaseError {
    ghost from_gives = { λ hex e. e ≡ error_of hex };

    fn from(e: FromHexError) -> Self {
        match e {
            FromHexError::OutOfMemory => CaseError::OutOfMemory,
            _ => CaseError::NotHexadecimal,
        }
    }
}
