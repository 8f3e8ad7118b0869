// The work of each call on a gate, once the gate and the position are known to exist.
ghost use Rattle.std.specs.Prelude.{◌≡◌, ◌*◌, ◌<◌, true, Ok};
ghost use Rattle.model.specs.Planners.{all_below};
ghost use Rattle.store.specs.Calls.{Strike, Bind, Keep, Contains};
ghost use Rattle.sparse.specs.Arrays.{cell};
ghost use Rattle.sparse.specs.Meanings.{meaning};

use crate::Sparse;

// kept: the gate and the position stand in the requires of each: a value that bears them out would hold the store's loan and read no plainer.
impl<'a> Sparse<'a> {
    /// Where the cells of the gate begin.
    pub(super) fn base(&self, g: usize) -> usize
        requires { g < self.now.gates }
        ensures { result ≡ g * self.now.width }
    {
        g * usize::from(self.width)
    }

    /// The place of the position in its gate.
    #[tactic(auto, using(crate::proofs::Calls::in_map))]
    fn place(&self, g: usize, p: u16) -> u16
        requires gate { g < self.now.gates }
        requires position { p < self.now.width }
        ensures { result ≡ cell self.now.cells.map.now self.now.width g p }
    {
        self.cells.map[self.base(g) + usize::from(p)]
    }

    /// Moves the position out of the domain, where it was in it; answers 1 then, else 0.
    pub(super) fn take_out(&mut self, g: usize, p: u16) -> u16
        requires gate { g < self.old.gates }
        requires position { p < self.old.width }
        ensures { Strike (meaning self.old) g p (Ok result) (meaning self.new) }
    {
        let at = self.place(g, p);
        let count = self.size[g];
        if at >= count {
            return 0;
        }
        // It changes places with the last of the domain, which then ends before it.
        let base = self.base(g);
        self.cells.swap(base, at, count - 1);
        self.size[g] = count - 1;
        1
    }

    /// Leaves the position alone in the domain, where it was in it, else none; answers how many are left.
    pub(super) fn bind_to(&mut self, g: usize, p: u16) -> u16
        requires gate { g < self.old.gates }
        requires position { p < self.old.width }
        ensures { Bind (meaning self.old) g p (Ok result) (meaning self.new) }
    {
        let at = self.place(g, p);
        if at >= self.size[g] {
            self.size[g] = 0;
            return 0;
        }
        let base = self.base(g);
        self.cells.to_front(base, at);
        self.size[g] = 1;
        1
    }

    /// Leaves the listed positions in the domain; answers how many are left.
    pub(super) fn keep_listed(&mut self, g: usize, list: &[u16]) -> u16
        requires gate { g < self.old.gates }
        requires within { all_below self.old.width list.now ≡ true }
        ensures { Keep (meaning self.old) g list.now (Ok result) (meaning self.new) }
    {
        let base = self.base(g);
        let left = self.cells.gather(base, self.width, self.size[g], list);
        self.size[g] = left;
        left
    }

    /// Whether the position stands among the first `size[g]` places.
    #[tactic(auto, using(crate::proofs::Calls::open_test))]
    pub(super) fn has(&self, g: usize, p: u16) -> bool
        requires gate { g < self.now.gates }
        requires position { p < self.now.width }
        ensures { Contains (meaning self.now) g p (Ok result) }
    {
        self.place(g, p) < self.size[g]
    }
}
