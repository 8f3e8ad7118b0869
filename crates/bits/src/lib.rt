// The bit store: a row of bits for each gate, and in the caller's memory a trail of the positions that have left.
#![tactic(auto)]

ghost use Rattle.stack.specs.Stacks.{items, room};
ghost use Rattle.bits.specs.Representation.{Fit, Long, Listed, Apart, Tied, Counts, Marks};

pub mod as_store;
mod domain;
pub mod entry;
mod make;

use domain::Domain;
use entry::Record;
use model::bounds::{GATES, MARKS};
use stack::Stack;

/// A store that asks and searches a gate's positions by words.
#[derive(Drop)]
pub struct Bits<'a> {
    trail: Stack<'a, Record>,
    gates: usize,
    width: u16,
    domains: [Domain; GATES],
    // a mark is the trail's length then; the first `depth` of them are in use
    // kept: a table and its depth, since a store has fixed memory and plain inner tables
    marks: [usize; MARKS],
    depth: usize,
    ghost fit: { Fit (room trail) gates width depth },
    ghost long: { Long domains marks },
    ghost listed: { Listed (items trail) gates width },
    ghost apart: { Apart (items trail) },
    ghost tied: { Tied (items trail) gates width domains },
    ghost counts: { Counts (items trail) gates width domains },
    ghost marked: { Marks (items trail) marks depth },
}
