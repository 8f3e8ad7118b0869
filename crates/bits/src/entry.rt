// What the trail holds.

/// A position that has left its gate.
#[derive(Clone, Copy, Debug, PartialEq, Eq, Hash)]
pub struct Record {
    pub gate: u8,
    pub position: u8,
}
