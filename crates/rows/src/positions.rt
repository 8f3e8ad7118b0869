// The positions of a row, one after another.
ghost use Rattle.std.specs.Prelude.{◌≤◌, ◌-◌};
ghost use Rattle.std.specs.Iterator.{at_most};
ghost use Rattle.model.specs.Bounds.{most_width};

use crate::Row;

/// The positions that a row holds, ascending.
#[derive(Clone, Copy)]
pub struct Positions {
    row: Row,
    from: u16,
    ghost within: { from ≤ most_width },
}

impl Row {
    ghost use Rattle.rows.specs.Positions.{LooksAt};

    /// The positions, ascending.
    pub fn positions(&self) -> Positions
        ensures { LooksAt result self.now 0 }
    {
        Positions {
            row: *self,
            from: 0,
        }
    }
}

impl Iterator for Positions {
    ghost use Rattle.rows.specs.Positions.{GivesNext};

    type Item = u16;

    ghost next_gives = { GivesNext };

    ghost remaining = { λ s. at_most (most_width - s.from) };

    fn next(&mut self) -> Option<u16> {
        let from = u8::try_from(self.from).ok()?;
        let p = self.row.next(from)?;
        self.from = p + 1;
        Some(p)
    }
}
