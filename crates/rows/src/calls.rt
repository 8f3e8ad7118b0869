// What a row does.
// kept: `as` narrows what fits, as the proofs show; `try_from` would add a way out that does not come
ghost use Rattle.std.specs.Prelude.{◌≡◌, ℕ, ◌+◌, ◌*◌, ◌/◌, ◌%◌, ◌<◌, not, ◌&&◌, ◌||◌, ◌==◌, nat_lt};
ghost use Rattle.rows.specs.declared.TheConstants.{BITS, WORDS};
ghost use Rattle.rows.specs.Rows.{bit, lit, Holds, Next, NextIn, Last, LastIn};

use crate::{BITS, Row, WORDS};
use std::array;

/// The lowest n bits of a word, or all of them.
#[tactic(auto, using(crate::proofs::Words::ones_below, crate::proofs::Words::ones_all))]
fn ones(n: usize) -> u64
    ensures { (k : ℕ) → k < BITS → bit result k ≡ nat_lt k n }
{
    if n < BITS { (1 << n) - 1 } else { u64::MAX }
}

/// Where a position stands: in which word, and at which bit of it.
#[derive(Clone, Copy)]
struct Place {
    word: usize,
    bit: usize,
    ghost word_there: { word < WORDS },
    ghost bit_there: { bit < BITS },
}

impl Place {
    fn of(p: u8) -> Place
        ensures word { result.word ≡ p / BITS }
        ensures bit { result.bit ≡ p % BITS }
        ensures whole { BITS * result.word + result.bit ≡ p }
    {
        let p = usize::from(p);
        Place {
            word: p / BITS,
            bit: p % BITS,
        }
    }
}

impl Row {
    /// The positions below w.
    pub fn below(w: usize) -> Row
        ensures { Holds result (λ q. nat_lt q w) }
    {
        Row {
            words: array::from_fn(|i| ones(w.saturating_sub(BITS * i))),
        }
    }

    /// Whether the position is in the row.
    #[tactic(auto, using(crate::proofs::Words::bit_test))]
    pub fn contains(&self, p: u8) -> bool
        ensures { result ≡ lit self.now p }
    {
        let at = Place::of(p);
        (self.words[at.word] >> at.bit) & 1 == 1
    }

    /// Puts the position in.
    #[tactic(auto, using(crate::proofs::Words::held_set_bit))]
    pub fn insert(&mut self, p: u8)
        ensures { Holds self.new (λ q. (q == p) || lit self.old q) }
    {
        let at = Place::of(p);
        self.words[at.word] |= 1 << at.bit;
    }

    /// Takes the position out.
    #[tactic(auto, using(crate::proofs::Words::held_clear_bit))]
    pub fn remove(&mut self, p: u8)
        ensures { Holds self.new (λ q. lit self.old q && not (q == p)) }
    {
        let at = Place::of(p);
        self.words[at.word] &= !(1 << at.bit);
    }

    /// The first position from `from` on.
    pub fn next(&self, from: u8) -> Option<u16>
        ensures { Next self.now from result }
    {
        let at = Place::of(from);
        self.next_in(at).or_else(|| self.next_word(at.word + 1))
    }

    /// The lowest position.
    pub fn lowest(&self) -> Option<u16>
        ensures { Next self.now 0 result }
    {
        self.next(0)
    }

    /// The highest position.
    pub fn highest(&self) -> Option<u16>
        ensures { Last self.now result }
    {
        (0..WORDS).rev().find_map(|i| self.last_in(i))
    }

    /// The first position from that place on in its word.
    fn next_in(&self, at: Place) -> Option<u16>
        ensures { NextIn self.now (BITS * at.word + at.bit) (BITS * (at.word + 1)) result }
    {
        let rest = self.words[at.word] >> at.bit;
        if rest == 0 {
            None
        } else {
            Some((BITS * at.word + at.bit) as u16 + rest.trailing_zeros() as u16)
        }
    }

    /// The first position from word i on.
    fn next_word(&self, i: usize) -> Option<u16>
        ensures { Next self.now (BITS * i) result }
    {
        (i..WORDS).find_map(|i| self.first_in(i))
    }

    /// The first position of word i.
    fn first_in(&self, i: usize) -> Option<u16>
        requires { i < WORDS }
        ensures { NextIn self.now (BITS * i) (BITS * (i + 1)) result }
    {
        self.next_in(Place { word: i, bit: 0 })
    }

    /// The last position of word i.
    fn last_in(&self, i: usize) -> Option<u16>
        requires { i < WORDS }
        ensures { LastIn self.now (BITS * i) (BITS * (i + 1)) result }
    {
        let word = self.words[i];
        if word == 0 {
            None
        } else {
            Some((BITS * i + BITS - 1) as u16 - word.leading_zeros() as u16)
        }
    }
}
