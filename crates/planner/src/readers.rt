// The readers: what they note, and what has gone since.
ghost use Rattle.std.specs.Prelude.{◌≡◌, false, [], length, is_ok, None, Err};
ghost use Rattle.model.specs.declared.refusal.Refusal.TheVariants.{NoPlan};
ghost use Rattle.model.specs.Calls.{note, changes};
ghost use Rattle.model.specs.Planners.{changed};
ghost use Rattle.model.specs.Answers.{numbers};
ghost use Rattle.planner.specs.States.{loaded, Makes};
ghost use Rattle.planner.specs.Lists.{Asks, Fits};

use crate::Planner;
use crate::checks::check_reader;
use lists::rows::{gone_lengths, gone_since, write_marked};
use model::refusal::Refusal;
use store::Store;

impl<S: Store> Planner<S> {
    /// The reader has seen all that has gone so far.
    pub fn note(&mut self, r: usize) -> Result<(), Refusal>
        ensures unloaded { loaded self.old ≡ None → result ≡ Err NoPlan }
        ensures whole { is_ok result ≡ false → self.new ≡ self.old }
        ensures made { Makes self.old (note r) (λ _. numbers []) result self.new }
    {
        self.check_loaded()?;
        check_reader(r)?;
        let lengths = gone_lengths(&self.store);
        self.book.note(r, lengths);
        Ok(())
    }

    /// Writes the positions that have left the gate since the reader's note, ascending, at the front of the list; answers their number.
    pub fn changes(&self, r: usize, g: usize, list: &mut [u16]) -> Result<usize, Refusal>
        ensures unloaded { loaded self.now ≡ None → result ≡ Err NoPlan }
        ensures refused { is_ok result ≡ false → list.new ≡ list.old }
        ensures fits { Fits list.old result }
        ensures asked { Asks self.now (changes r g (length list.old)) (λ plan s. changed plan s r g) list.old result list.new }
    {
        self.check_loaded()?;
        check_reader(r)?;
        self.store.check_gate(g)?;
        let from = usize::from(self.book.noted(r, g));
        let row = gone_since(&self.store, g, from);
        write_marked(&row, self.store.width(), list).ok_or(Refusal::ListTooShort)
    }
}
