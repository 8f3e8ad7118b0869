// A layer over any store that remembers each gate's lowest and highest open position.
#![tactic(auto)]

ghost use Rattle.bounds.specs.Ends.{Remembered};
ghost use Rattle.bounds.specs.Unique.{Remembered-prop};

use crate::ends::Memory;
use store::Store;

mod ends;
pub mod layer;
mod memory;
mod scan;

/// A store, and what is remembered of its domains.
#[derive(Drop)]
pub struct Bounds<S: Store> {
    below: S,
    memory: Memory,
    ghost right: { Remembered (S.mean below) memory } by { Remembered-prop (S.mean below) memory },
}
