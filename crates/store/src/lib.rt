// The interface of every store: gates, the positions that have left each of them, and marks to come back to.
#![tactic(auto)]

ghost use Rattle.std.specs.Prelude.{◌≡◌, false, is_ok};
ghost use Rattle.store.specs.Meaning.{Meaning, Sound, domains};
ghost use Rattle.store.specs.Calls.{Reset, Strike, Bind, Keep, Save, Restore, Contains, Count, Gone, Lowest, Highest, NextOpen, SizeCheck, GateCheck, PositionCheck, ListCheck};

use list::all_below;
use model::bounds::{GATES, WIDTH};
use model::refusal::Refusal;

pub mod list;

// kept: that a refused call leaves the store as it was is a clause of each call, as it is each call's promise.
/// No call has a precondition; a refused one leaves the store as it was.
pub trait Store {
    ghost mean: { Self → Meaning };

    // Each store proves that what it means is sound.
    ghost sound: { (s : Self) → Sound (mean s) };

    /// How many cells, gates times positions, the store can take.
    fn holds(&self) -> usize
        ensures { result ≡ (mean self.now).cells };

    /// Begins anew with n gates of w positions, all open, and no mark.
    fn reset(&mut self, n: usize, w: u16) -> Result<(), Refusal>
        ensures meant { Reset (mean self.old) n w result (mean self.new) }
        ensures whole { is_ok result ≡ false → self.new ≡ self.old };

    /// Takes the position out of the gate's domain; answers 1, or 0 where it was not in it.
    fn strike(&mut self, g: usize, p: u16) -> Result<u16, Refusal>
        ensures meant { Strike (mean self.old) g p result (mean self.new) }
        ensures whole { is_ok result ≡ false → self.new ≡ self.old };

    /// Takes all positions but this one out of the gate's domain; answers how many are left.
    fn bind(&mut self, g: usize, p: u16) -> Result<u16, Refusal>
        ensures meant { Bind (mean self.old) g p result (mean self.new) }
        ensures whole { is_ok result ≡ false → self.new ≡ self.old };

    /// Takes all positions that the list lacks out of the gate's domain; answers how many are left.
    fn keep(&mut self, g: usize, list: &[u16]) -> Result<u16, Refusal>
        ensures meant { Keep (mean self.old) g list.now result (mean self.new) }
        ensures whole { is_ok result ≡ false → self.new ≡ self.old };

    /// Adds a mark; answers how many there are then.
    fn save(&mut self) -> Result<u16, Refusal>
        ensures meant { Save (mean self.old) result (mean self.new) }
        ensures whole { is_ok result ≡ false → self.new ≡ self.old };

    /// Goes back to the newest mark and removes it; answers how many there are then.
    fn restore(&mut self) -> Result<u16, Refusal>
        ensures meant { Restore (mean self.old) result (mean self.new) }
        ensures whole { is_ok result ≡ false → self.new ≡ self.old };

    /// How many gates there are.
    fn gates(&self) -> usize
        ensures { result ≡ (mean self.now).gates };

    /// How many positions each gate has.
    fn width(&self) -> u16
        ensures { result ≡ (mean self.now).width };

    /// Whether the position is open to the gate.
    fn contains(&self, g: usize, p: u16) -> Result<bool, Refusal>
        ensures { Contains (mean self.now) g p result };

    /// How many positions are open to the gate.
    fn count(&self, g: usize) -> Result<u16, Refusal>
        ensures { Count (mean self.now) g result };

    /// The lowest position open to the gate.
    fn lowest(&self, g: usize) -> Result<Option<u16>, Refusal>
        ensures { Lowest (mean self.now) g result };

    /// The highest position open to the gate.
    fn highest(&self, g: usize) -> Result<Option<u16>, Refusal>
        ensures { Highest (mean self.now) g result };

    /// The k-th position that has left the gate, from 0 on.
    fn gone(&self, g: usize, k: usize) -> Result<Option<u16>, Refusal>
        ensures { Gone (mean self.now) g k result };

    /// Whether the position is open to the gate: no where there is no such gate or position.
    #[tactic(auto, using(crate::proofs::Domains::contains_yes))]
    fn is_open(&self, g: usize, p: u16) -> bool
        ensures { result ≡ domains (mean self.now) g p }
    {
        self.contains(g, p).unwrap_or(false)
    }

    /// The least open position from `from` on. A store may answer it faster.
    fn next_open(&self, g: usize, from: u16) -> Option<u16>
        ensures { NextOpen (mean self.now) g from result }
    {
        (from..self.width()).find(|&p| self.is_open(g, p))
    }

    /// Refuses a number of gates or positions that no plan has, or that the store cannot take.
    fn check_size(&self, n: usize, w: u16) -> Result<(), Refusal>
        ensures { SizeCheck (mean self.now) n w result }
    {
        let width = usize::from(w);
        if n < 1 || n > GATES || width < 1 || width > WIDTH || n * width > self.holds() {
            Err(Refusal::NoRoom)
        } else {
            Ok(())
        }
    }

    /// Refuses a gate that there is not.
    fn check_gate(&self, g: usize) -> Result<(), Refusal>
        ensures { GateCheck (mean self.now) g result }
    {
        if g < self.gates() {
            Ok(())
        } else {
            Err(Refusal::NoGate)
        }
    }

    /// Refuses a gate that there is not, and then a position that there is not.
    fn check_position(&self, g: usize, p: u16) -> Result<(), Refusal>
        ensures { PositionCheck (mean self.now) g p result }
    {
        self.check_gate(g)?;
        if p < self.width() {
            Ok(())
        } else {
            Err(Refusal::NoPosition)
        }
    }

    /// Refuses a gate that there is not, and then a list with a position that there is not.
    fn check_list(&self, g: usize, list: &[u16]) -> Result<(), Refusal>
        ensures { ListCheck (mean self.now) g list.now result }
    {
        self.check_gate(g)?;
        if all_below(list, self.width()) {
            Ok(())
        } else {
            Err(Refusal::NoPosition)
        }
    }
}
