// A keeper of bounds is a store.
ghost use Rattle.std.specs.Prelude.{◌≡◌};

use crate::Bounds;
use crate::ends::{Ends, Memory};
use crate::scan::after_bind;
use model::bounds::MARKS;
use model::refusal::Refusal;
use store::Store;

impl<S: Store> Bounds<S> {
    /// The keeper over this store. It has no ends for marks that the store was given before.
    #[tactic(auto, using(crate::proofs::Memories::held_none))]
    pub fn over(below: S) -> Self
        ensures meant { ⟦<Bounds<S> as Store>⟧.mean result ≡ S.mean below }
    {
        let ends = Ends::of(&below);
        Bounds {
            below,
            memory: Memory {
                ends,
                saved: [None; MARKS],
            },
        }
    }
}

/// A keeper over a keeper.
pub fn pile<S: Store>(below: S) -> Bounds<Bounds<S>>
    ensures meant { ⟦<Bounds<Bounds<S>> as Store>⟧.mean result ≡ S.mean below }
{
    Bounds::over(Bounds::over(below))
}

impl<S: Store> Store for Bounds<S> {
    ghost mean = { λ b. S.mean b.below };

    ghost sound = { λ b. S.sound b.below };

    fn holds(&self) -> usize {
        self.below.holds()
    }

    fn reset(&mut self, n: usize, w: u16) -> Result<(), Refusal> {
        self.below.reset(n, w)?;
        self.memory.reset(w);
        Ok(())
    }

    fn strike(&mut self, g: usize, p: u16) -> Result<u16, Refusal> {
        let hit = self.below.strike(g, p)?;
        self.memory.narrow(&self.below, g);
        Ok(hit)
    }

    // At most the one position is left, so nothing is sought.
    fn bind(&mut self, g: usize, p: u16) -> Result<u16, Refusal> {
        let left = self.below.bind(g, p)?;
        self.memory.write(g, after_bind(left, p));
        Ok(left)
    }

    fn keep(&mut self, g: usize, list: &[u16]) -> Result<u16, Refusal> {
        let left = self.below.keep(g, list)?;
        self.memory.narrow(&self.below, g);
        Ok(left)
    }

    fn save(&mut self) -> Result<u16, Refusal> {
        let many = self.below.save()?;
        self.memory.save(usize::from(many) - 1);
        Ok(many)
    }

    fn restore(&mut self) -> Result<u16, Refusal> {
        let many = self.below.restore()?;
        self.memory.restore(usize::from(many), &self.below);
        Ok(many)
    }

    fn gates(&self) -> usize {
        self.below.gates()
    }

    fn width(&self) -> u16 {
        self.below.width()
    }

    fn contains(&self, g: usize, p: u16) -> Result<bool, Refusal> {
        self.below.contains(g, p)
    }

    fn count(&self, g: usize) -> Result<u16, Refusal> {
        self.below.count(g)
    }

    fn lowest(&self, g: usize) -> Result<Option<u16>, Refusal> {
        self.check_gate(g)?;
        Ok(self.memory.ends.spans[g].map(|s| u16::from(s.lowest)))
    }

    fn highest(&self, g: usize) -> Result<Option<u16>, Refusal> {
        self.check_gate(g)?;
        Ok(self.memory.ends.spans[g].map(|s| u16::from(s.highest)))
    }

    fn gone(&self, g: usize, k: usize) -> Result<Option<u16>, Refusal> {
        self.below.gone(g, k)
    }

    fn is_open(&self, g: usize, p: u16) -> bool {
        self.below.is_open(g, p)
    }

    fn next_open(&self, g: usize, from: u16) -> Option<u16> {
        self.below.next_open(g, from)
    }
}
