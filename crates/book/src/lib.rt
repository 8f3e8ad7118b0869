// The book of notes: what each reader noted, now and at each open save.
#![tactic(auto)]

ghost use Rattle.std.specs.Prelude.{◌≡◌, ◌≤◌, length};
ghost use Rattle.model.specs.Bounds.{most_saves};

use model::bounds::{GATES, READERS, SAVES};

mod calls;

/// For each gate, how many positions have left it.
pub type Lengths = [u16; GATES];

/// For each reader, the lengths at its note.
// kept: a plain table behind a name, so that a save is one assignment and a note writes one entry; the memory is fixed.
#[derive(Clone, Copy, Debug, PartialEq, Eq)]
pub struct Notes {
    rows: [Lengths; READERS],
}

/// The notes now, and the notes at each of the `depth` open saves, oldest first.
// kept: a table with a depth beside it, as library crates allocate nothing; what lies past the depth is stale, so books have no `==`.
#[derive(Drop, Debug)]
pub struct Book {
    notes: Notes,
    saved: [Notes; SAVES],
    depth: usize,
    ghost few: { (depth ≤ most_saves) × (length saved ≡ most_saves) },
}
