// The field that lists the positions a gate starts with.
ghost use Rattle.std.specs.Prelude.{◌≡◌, ℕ, ◌<◌, ◌≤◌, false, ◌||◌, slice_index_or};
ghost use Rattle.model.specs.Bounds.{most_width};
ghost use Rattle.text.specs.Tests.{within};
ghost use Rattle.text.specs.Ranges.{row_of, listing_of};

use model::bounds::WIDTH;

/// A gate, and whether it starts with each position.
#[derive(Clone, Copy, Debug, PartialEq, Eq, Hash)]
pub struct Listing {
    pub gate: usize,
    pub row: [bool; WIDTH],
}

/// Marks the positions from `first` to `last` in a row, and leaves the others.
fn mark(row: &mut [bool; WIDTH], first: u8, last: u8)
    requires { first ≤ last }
    ensures { (p : ℕ) → p < most_width → slice_index_or row.new p false ≡ (within first last p || slice_index_or row.old p false) }
{
    row[usize::from(first)..=usize::from(last)].fill(true);
}

/// The positions that ranges cover, or `None` where one's first is above its last, or its last is not below `width`.
fn read_row(ranges: &[u8], width: usize) -> Option<[bool; WIDTH]>
    ensures { result ≡ row_of ranges.now width }
{
    let mut row = [false; WIDTH];
    for range in ranges.chunks_exact(2) {
        let (first, last) = (range[0], range[1]);
        if first > last || usize::from(last) >= width {
            return None;
        }
        mark(&mut row, first, last);
    }
    Some(row)
}

/// The gate and the positions of a payload, or `None` where a number is out of range or a range's first is above its last.
pub fn read_positions(payload: &[u8], gates: usize, width: usize) -> Option<Listing>
    ensures { result ≡ listing_of payload.now gates width }
{
    let (first, ranges) = payload.split_first()?;
    let gate = usize::from(*first);
    if gate >= gates {
        return None;
    }
    let row = read_row(ranges, width)?;
    Some(Listing { gate, row })
}
