// A bit store is a store.
// kept: `as` narrows what fits, as the proofs show; `try_from` would add a way out that does not come
ghost use Rattle.std.specs.Prelude.{◌≡◌, ◌-◌, ◌<◌, true, length, Ok, nat_eq, slice_get, slice_index};
ghost use Rattle.model.specs.Bounds.{most_marks};
ghost use Rattle.model.specs.Families.{has};
ghost use Rattle.model.specs.Planners.{all_below};
ghost use Rattle.stack.specs.Stacks.{items};
ghost use Rattle.store.specs.Meaning.{appended};
ghost use Rattle.store.specs.Calls.{Strike, Kept, Save, Restore};
ghost use Rattle.store.proofs.Sweeps.{outs};
ghost use Rattle.rows.specs.Rows.{lit};
ghost use Rattle.bits.specs.Representation.{gone_in};
ghost use Rattle.bits.specs.Meanings.{meaning};
ghost use Rattle.bits.specs.Soundness.{sound};

use crate::Bits;
use crate::domain::Domain;
use crate::entry::Record;
use model::bounds::{CELLS, GATES, MARKS};
use model::refusal::Refusal;
use rows::Row;
use store::Store;

impl<'a> Store for Bits<'a> {
    ghost mean = { meaning };

    ghost sound = { sound };

    fn holds(&self) -> usize {
        self.trail.room().min(CELLS)
    }

    fn reset(&mut self, n: usize, w: u16) -> Result<(), Refusal> {
        self.check_size(n, w)?;
        let full = Domain {
            row: Row::below(usize::from(w)),
            count: w,
        };
        self.trail.clear();
        self.domains = [full; GATES];
        self.depth = 0;
        self.width = w;
        self.gates = n;
        Ok(())
    }

    fn strike(&mut self, g: usize, p: u16) -> Result<u16, Refusal> {
        self.check_position(g, p)?;
        Ok(self.strike_at(g, p))
    }

    fn bind(&mut self, g: usize, p: u16) -> Result<u16, Refusal> {
        self.check_position(g, p)?;
        Ok(self.bind_at(g, p))
    }

    fn keep(&mut self, g: usize, list: &[u16]) -> Result<u16, Refusal> {
        self.check_list(g, list)?;
        Ok(self.keep_at(g, list))
    }

    fn save(&mut self) -> Result<u16, Refusal> {
        if self.depth >= MARKS {
            return Err(Refusal::TooManySaves);
        }
        let len = self.trail.len();
        Ok(self.mark(len))
    }

    fn restore(&mut self) -> Result<u16, Refusal> {
        if self.depth == 0 {
            return Err(Refusal::NoSave);
        }
        let to = self.marks[self.depth - 1];
        Ok(self.back_to(to))
    }

    fn gates(&self) -> usize {
        self.gates
    }

    fn width(&self) -> u16 {
        self.width
    }

    #[tactic(auto, using(crate::proofs::Openings::bit_is))]
    fn contains(&self, g: usize, p: u16) -> Result<bool, Refusal> {
        self.check_position(g, p)?;
        Ok(self.domains[g].row.contains(p as u8))
    }

    #[tactic(auto, using(crate::proofs::Openings::count_is))]
    fn count(&self, g: usize) -> Result<u16, Refusal> {
        self.check_gate(g)?;
        Ok(self.domains[g].count)
    }

    #[tactic(auto, using(crate::proofs::Openings::least_is))]
    fn lowest(&self, g: usize) -> Result<Option<u16>, Refusal> {
        self.check_gate(g)?;
        Ok(self.domains[g].row.lowest())
    }

    #[tactic(auto, using(crate::proofs::Openings::greatest_is))]
    fn highest(&self, g: usize) -> Result<Option<u16>, Refusal> {
        self.check_gate(g)?;
        Ok(self.domains[g].row.highest())
    }

    #[tactic(auto, using(crate::proofs::Walks::gone_is))]
    fn gone(&self, g: usize, k: usize) -> Result<Option<u16>, Refusal> {
        self.check_gate(g)?;
        Ok(self.gone_at(g, k))
    }

    #[tactic(auto, using(crate::proofs::Openings::next_is))]
    fn next_open(&self, g: usize, from: u16) -> Option<u16> {
        self.check_position(g, from).ok()?;
        self.domains[g].row.next(from as u8)
    }
}

// The calls at a gate, a position or a mark that there is.
// kept: methods of their own with what they need. Written out in the calls, bind and save are not found by the search, and an edit of them is refused in a proof file.
impl<'a> Bits<'a> {
    fn strike_at(&mut self, g: usize, p: u16) -> u16
        requires gate { g < self.old.gates }
        requires position { p < self.old.width }
        ensures { Strike (meaning self.old) g p (Ok result) (meaning self.new) }
    {
        let mut domain = self.domains[g];
        if !domain.row.contains(p as u8) {
            return 0;
        }
        domain.row.remove(p as u8);
        domain.count -= 1;
        // there is room: no position leaves its gate twice
        let _ = self.trail.push(Record {
            gate: g as u8,
            position: p as u8,
        });
        self.domains[g] = domain;
        1
    }

    fn bind_at(&mut self, g: usize, p: u16) -> u16
        requires gate { g < self.old.gates }
        requires position { p < self.old.width }
        ensures { Kept (meaning self.old) g (λ q. nat_eq q p) (Ok result) (meaning self.new) }
    {
        let mut out = self.domains[g].row;
        out.remove(p as u8);
        self.sweep(g, &out);
        self.domains[g].count
    }

    fn keep_at(&mut self, g: usize, list: &[u16]) -> u16
        requires gate { g < self.old.gates }
        requires positions { all_below self.old.width list.now ≡ true }
        ensures { Kept (meaning self.old) g (has list.now) (Ok result) (meaning self.new) }
    {
        let mut out = self.domains[g].row;
        for &p in list {
            out.remove(p as u8);
        }
        self.sweep(g, &out);
        self.domains[g].count
    }

    /// Strikes what the row has of the gate's open positions, in order.
    fn sweep(&mut self, g: usize, out: &Row)
        ensures { g < self.old.gates → meaning self.new ≡ appended (meaning self.old) g (outs (meaning self.old) g (lit out.now) self.old.width) }
    {
        for q in out.positions() {
            let _ = self.strike(g, q);
        }
    }

    fn mark(&mut self, len: usize) -> u16
        requires room { self.old.depth < most_marks }
        requires len { len ≡ length (items self.old.trail) }
        ensures { Save (meaning self.old) (Ok result) (meaning self.new) }
    {
        self.marks[self.depth] = len;
        self.depth += 1;
        self.depth as u16
    }

    fn back_to(&mut self, to: usize) -> u16
        requires marked { 0 < self.old.depth }
        requires to { to ≡ slice_index self.old.marks (self.old.depth - 1) }
        ensures { Restore (meaning self.old) (Ok result) (meaning self.new) }
    {
        while self.trail.len() > to {
            if let Some(r) = self.trail.pop() {
                let g = usize::from(r.gate);
                let mut domain = self.domains[g];
                domain.row.insert(r.position);
                domain.count += 1;
                self.domains[g] = domain;
            }
        }
        self.depth -= 1;
        self.depth as u16
    }

    fn gone_at(&self, g: usize, k: usize) -> Option<u16>
        ensures { result ≡ slice_get (gone_in g (items self.now.trail)) k }
    {
        // kept: a loop that counts. By `filter` and `nth` the walk took a third more instructions, and `changes` over a bit store 2.6 times as many.
        let mut seen: usize = 0;
        for r in self.trail.entries() {
            if usize::from(r.gate) == g {
                if seen == k {
                    return Some(u16::from(r.position));
                }
                seen += 1;
            }
        }
        None
    }
}
