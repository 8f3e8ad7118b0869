// A sparse store in the caller's memory, and what it answers to each call.
// kept: `as` narrows what fits, as the proofs show; `try_from` would add a way out that does not come
ghost use Rattle.std.specs.Prelude.{◌≡◌, min, length};
ghost use Rattle.model.specs.Bounds.{most_cells};
ghost use Rattle.store.specs.Meaning.{fresh};
ghost use Rattle.store.specs.Calls.{Takes};
ghost use Rattle.sparse.specs.Meanings.{meaning};
ghost use Rattle.sparse.specs.Soundness.{sound};

use crate::Sparse;
use crate::cells::Cells;
use model::bounds::{CELLS, GATES, MARKS};
use model::refusal::Refusal;
use std::ops::Range;
use store::Store;

impl<'a> Sparse<'a> {
    /// A store of no gates yet. Each position of each gate will take one cell of both.
    pub fn new(dom: &'a mut [u16], map: &'a mut [u16]) -> Self
        ensures { meaning result ≡ fresh (min (min (length dom.old) (length map.old)) most_cells) 0 0 }
    {
        Sparse {
            cells: Cells { dom, map },
            gates: 0,
            width: 0,
            size: [0; GATES],
            marks: [[0; GATES]; MARKS],
            depth: 0,
        }
    }

    /// Puts every position of n gates at its own place, all in the domains, and drops all marks.
    fn begin(&mut self, n: usize, w: u16)
        requires { Takes (meaning self.old) n w }
        ensures { meaning self.new ≡ fresh (meaning self.old).cells n w }
    {
        self.cells.fill(w, n * usize::from(w));
        (self.gates, self.width) = (n, w);
        self.size = [w; GATES];
        self.depth = 0;
    }

    /// Every position of a gate, ascending.
    fn positions(&self) -> Range<u16>
        ensures first { result.start ≡ 0 }
        ensures end { result.end ≡ self.now.width }
    {
        0..self.width
    }
}

impl<'a> Store for Sparse<'a> {
    ghost mean = { meaning };

    ghost sound = { sound };

    fn holds(&self) -> usize {
        self.cells.dom.len().min(self.cells.map.len()).min(CELLS)
    }

    fn reset(&mut self, n: usize, w: u16) -> Result<(), Refusal> {
        self.check_size(n, w)?;
        self.begin(n, w);
        Ok(())
    }

    fn strike(&mut self, g: usize, p: u16) -> Result<u16, Refusal> {
        self.check_position(g, p)?;
        Ok(self.take_out(g, p))
    }

    fn bind(&mut self, g: usize, p: u16) -> Result<u16, Refusal> {
        self.check_position(g, p)?;
        Ok(self.bind_to(g, p))
    }

    fn keep(&mut self, g: usize, list: &[u16]) -> Result<u16, Refusal> {
        self.check_list(g, list)?;
        Ok(self.keep_listed(g, list))
    }

    #[tactic(auto, using(crate::proofs::Marks::save_means, crate::specs::Soundness::length_marks))]
    fn save(&mut self) -> Result<u16, Refusal> {
        if self.depth >= MARKS {
            return Err(Refusal::TooManySaves);
        }
        self.marks[self.depth] = self.size;
        self.depth += 1;
        Ok(self.depth as u16)
    }

    #[tactic(auto, using(crate::proofs::Marks::restore_means, crate::specs::Soundness::length_marks))]
    fn restore(&mut self) -> Result<u16, Refusal> {
        if self.depth == 0 {
            return Err(Refusal::NoSave);
        }
        self.depth -= 1;
        self.size = self.marks[self.depth];
        Ok(self.depth as u16)
    }

    fn gates(&self) -> usize {
        self.gates
    }

    fn width(&self) -> u16 {
        self.width
    }

    fn contains(&self, g: usize, p: u16) -> Result<bool, Refusal> {
        self.check_position(g, p)?;
        Ok(self.has(g, p))
    }

    #[tactic(auto, using(crate::proofs::Calls::left_now))]
    fn count(&self, g: usize) -> Result<u16, Refusal> {
        self.check_gate(g)?;
        Ok(self.size[g])
    }

    fn lowest(&self, g: usize) -> Result<Option<u16>, Refusal> {
        self.check_gate(g)?;
        Ok(self.positions().find(|&p| self.has(g, p)))
    }

    fn highest(&self, g: usize) -> Result<Option<u16>, Refusal> {
        self.check_gate(g)?;
        Ok(self.positions().rev().find(|&p| self.has(g, p)))
    }

    #[tactic(auto, using(crate::proofs::Calls::length_of_gone, crate::proofs::Calls::gone_from_last))]
    fn gone(&self, g: usize, k: usize) -> Result<Option<u16>, Refusal> {
        self.check_gate(g)?;
        // What has left stands behind the domain, the oldest last.
        let w = usize::from(self.width);
        if k >= w - usize::from(self.size[g]) {
            return Ok(None);
        }
        Ok(Some(self.cells.dom[self.base(g) + (w - 1 - k)]))
    }
}
