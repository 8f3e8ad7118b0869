// Rows of bits: sets of positions.
#![tactic(auto)]

use model::bounds::WIDTH;

mod calls;
pub mod positions;

/// The bits of a word.
const BITS: usize = 64;
/// The words of a row.
const WORDS: usize = WIDTH / BITS;

/// A set of positions: bit p % 64 of word p / 64 says whether position p is in it.
#[derive(Clone, Copy, Debug, PartialEq, Eq, Hash)]
pub struct Row {
    words: [u64; WORDS],
}
