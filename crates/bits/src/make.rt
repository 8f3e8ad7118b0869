// How a bit store is made.
ghost use Rattle.std.specs.Prelude.{◌≡◌, min, length};
ghost use Rattle.model.specs.Bounds.{most_cells};
ghost use Rattle.store.specs.Meaning.{fresh};
ghost use Rattle.bits.specs.Meanings.{meaning};

use crate::Bits;
use crate::domain::Domain;
use crate::entry::Record;
use model::bounds::{GATES, MARKS};
use rows::Row;
use stack::Stack;

impl<'a> Bits<'a> {
    /// A store without gates whose trail is in these slots: it holds as many cells as there are slots.
    pub fn new(slots: &'a mut [Record]) -> Bits<'a>
        ensures { meaning result ≡ fresh (min (length slots.old) most_cells) 0 0 }
    {
        let trail = Stack::new(slots);
        let none = Domain {
            row: Row::below(0),
            count: 0,
        };
        Bits {
            trail,
            gates: 0,
            width: 0,
            domains: [none; GATES],
            marks: [0; MARKS],
            depth: 0,
        }
    }
}
