// The caller's memory: the position at each place of a gate, and the place of each position.
// kept: `as` narrows what fits, as the proofs show; `try_from` would add a way out that does not come
ghost use Rattle.std.specs.Prelude.{◌≡◌, ℕ, ◌+◌, ◌%◌, ◌<◌, ◌≤◌, true, ◌&&◌, length, nat_le, nat_lt, slice_index};
ghost use Rattle.model.specs.Planners.{all_below};
ghost use Rattle.sparse.specs.Arrays.{Perm, from, dom_swapped, map_swapped, Gathered};

/// A gate's cells in both begin at its base, one for each of its positions.
// kept: two arrays, as a sparse set is published, and as the caller lends them.
// kept: the base is a parameter: a struct of one gate's parts of both would be two more loans at each call, and spare one sum at an index.
#[derive(Drop)]
pub struct Cells<'a> {
    pub dom: &'a mut [u16],
    pub map: &'a mut [u16],
}

/// Writes 0, 1, .. w - 1, again and again, into the first cells.
fn ramp(s: &mut [u16], w: u16, cells: usize)
    requires some { 1 ≤ w }
    requires room { cells ≤ length s.old }
    ensures { (j : ℕ) → j < cells → slice_index s.new j ≡ j % w }
{
    for (i, x) in s[..cells].iter_mut().enumerate() {
        *x = (i % usize::from(w)) as u16;
    }
}

/// Whether a listed position at this place is still to come to the front: one that the list repeats stands before it already.
fn waits(front: u16, at: u16, count: u16) -> bool
    ensures { result ≡ (nat_le front at && nat_lt at count) }
{
    (front..count).contains(&at)
}

impl<'a> Cells<'a> {
    /// Puts every position of the first cells at its own place.
    pub fn fill(&mut self, w: u16, cells: usize)
        requires some { 1 ≤ w }
        requires dom_room { cells ≤ length self.old.dom.now }
        requires map_room { cells ≤ length self.old.map.now }
        ensures dom { (j : ℕ) → j < cells → slice_index self.new.dom.now j ≡ j % w }
        ensures map { (j : ℕ) → j < cells → slice_index self.new.map.now j ≡ j % w }
        ensures dom_long { length self.new.dom.now ≡ length self.old.dom.now }
        ensures map_long { length self.new.map.now ≡ length self.old.map.now }
    {
        ramp(self.dom, w, cells);
        ramp(self.map, w, cells);
    }

    /// Exchanges the positions at places a and b of the gate with this base.
    pub fn swap(&mut self, base: usize, a: u16, b: u16)
        requires place_a { base + a < length self.old.dom.now }
        requires place_b { base + b < length self.old.dom.now }
        requires position_a { base + from self.old.dom.now base a < length self.old.map.now }
        requires position_b { base + from self.old.dom.now base b < length self.old.map.now }
        ensures dom { self.new.dom.now ≡ dom_swapped self.old.dom.now base a b }
        ensures map { self.new.map.now ≡ map_swapped self.old.dom.now self.old.map.now base a b }
    {
        let p = self.dom[base + usize::from(a)];
        let q = self.dom[base + usize::from(b)];
        self.dom[base + usize::from(a)] = q;
        self.dom[base + usize::from(b)] = p;
        self.map[base + usize::from(q)] = a;
        self.map[base + usize::from(p)] = b;
    }

    /// Exchanges the position at this place with the one at the first.
    pub fn to_front(&mut self, base: usize, at: u16)
        requires place { base + at < length self.old.dom.now }
        requires first { base + 0 < length self.old.dom.now }
        requires position { base + from self.old.dom.now base at < length self.old.map.now }
        requires at_first { base + from self.old.dom.now base 0 < length self.old.map.now }
        ensures dom { self.new.dom.now ≡ dom_swapped self.old.dom.now base at 0 }
        ensures map { self.new.map.now ≡ map_swapped self.old.dom.now self.old.map.now base at 0 }
    {
        self.swap(base, at, 0);
    }

    /// Brings each listed position among the first `count` places to the front; answers how many they are.
    pub fn gather(&mut self, base: usize, w: u16, count: u16, list: &[u16]) -> u16
        requires perm { Perm w (from self.old.dom.now base) (from self.old.map.now base) }
        requires dom_room { base + w ≤ length self.old.dom.now }
        requires map_room { base + w ≤ length self.old.map.now }
        requires some { count ≤ w }
        requires within { all_below w list.now ≡ true }
        ensures { Gathered base w count list.now result self.old.dom.now self.old.map.now self.new.dom.now self.new.map.now }
    {
        // kept: the front is where the next one goes, and the answer; a fold would lend the cells to its closure and read no plainer.
        let mut front: u16 = 0;
        for &p in list {
            let at = self.map[base + usize::from(p)];
            if waits(front, at, count) {
                self.swap(base, at, front);
                front += 1;
            }
        }
        front
    }
}
