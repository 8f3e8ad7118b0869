// What is remembered of the domains.
ghost use Rattle.std.specs.Prelude.{◌≡◌, ◌<◌};
ghost use Rattle.model.specs.Bounds.{most_width};

use model::bounds::{GATES, MARKS};

/// The lowest and the highest open position of a gate. A byte holds a position, so that the ends of a mark are few bytes, copied in line.
#[derive(Clone, Copy, Debug, PartialEq, Eq, Hash)]
pub struct Span {
    pub lowest: u8,
    pub highest: u8,
}

impl Span {
    /// The span from one position to another.
    pub fn new(lowest: u16, highest: u16) -> Span
        requires low { lowest < most_width }
        requires high { highest < most_width }
        ensures { result ≡ record { lowest = lowest; highest = highest } }
    {
        Span {
            lowest: lowest as u8,
            highest: highest as u8,
        }
    }
}

/// The span of each gate, none where nothing is open.
#[derive(Clone, Copy, Debug, PartialEq, Eq)]
pub struct Ends {
    pub spans: [Option<Span>; GATES],
}

/// The ends now, and those that each mark goes back to, the oldest mark's first. There are none for a mark that is older than the keeper.
#[derive(Drop)]
pub struct Memory {
    pub ends: Ends,
    pub saved: [Option<Ends>; MARKS],
}
