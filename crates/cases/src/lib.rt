// The cases that the test programs read, and what they tell of a plan.
#![tactic(auto)]

mod case;
mod each;
mod error;
mod hexadecimal;
pub mod told;

pub use case::Case;
pub use each::for_each;
pub use error::CaseError;
