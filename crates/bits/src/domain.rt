// What is left to a gate.
use rows::Row;

/// The positions open to a gate, and how many they are.
#[derive(Clone, Copy, Debug, PartialEq, Eq)]
pub struct Domain {
    pub row: Row,
    pub count: u16,
}
