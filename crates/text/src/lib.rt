// Texts as fields: a tag, a length and a payload. The reader hands out one field a call; each kind of field has its parser.
#![tactic(auto)]

pub mod fault;
pub mod field;
pub mod head;
pub mod kind;
mod members;
mod numbers;
pub mod positions;
pub mod reader;
pub mod rules;
