// The sparse store: each gate's positions stand in the caller's memory as a permutation, its domain first.
#![tactic(auto)]

ghost use Rattle.sparse.specs.Arrays.{Room, Perms, Sizes, Table, Fall, Since, Within};

use cells::Cells;
use model::bounds::{GATES, MARKS};

pub mod as_store;
mod cells;
mod gate;

/// The first `size[g]` places of gate g are its domain; the others hold what has left it, the newest first.
/// What has left stays where it is, so a mark keeps only the sizes.
#[derive(Drop)]
pub struct Sparse<'a> {
    cells: Cells<'a>,
    gates: usize,
    width: u16,
    size: [u16; GATES],
    // kept: a table and how much of it is used: the memory is fixed, and a mark needs no loan of the caller's.
    marks: [[u16; GATES]; MARKS],
    depth: usize,
    ghost room: { Room cells.dom.now cells.map.now gates width },
    ghost perms: { Perms cells.dom.now cells.map.now gates width },
    ghost sizes: { Sizes gates width size },
    ghost table: { Table marks depth },
    ghost fall: { Fall gates marks depth },
    ghost since: { Since gates size marks depth },
    ghost within: { Within gates width marks depth },
}
