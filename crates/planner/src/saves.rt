// Save and restore: the store's marks, and the notes beside each.
ghost use Rattle.std.specs.Prelude.{◌≡◌, false, [], ◌∷◌, is_ok, None, Err};
ghost use Rattle.model.specs.declared.refusal.Refusal.TheVariants.{NoPlan};
ghost use Rattle.model.specs.Calls.{save, restore};
ghost use Rattle.model.specs.Answers.{numbers};
ghost use Rattle.planner.specs.States.{loaded, Makes};

use crate::Planner;
use model::refusal::Refusal;
use store::Store;

impl<S: Store> Planner<S> {
    /// Opens a save; answers how many are open then.
    pub fn save(&mut self) -> Result<u16, Refusal>
        ensures unloaded { loaded self.old ≡ None → result ≡ Err NoPlan }
        ensures whole { is_ok result ≡ false → self.new ≡ self.old }
        ensures made { Makes self.old save (λ a. numbers (a ∷ [])) result self.new }
    {
        self.check_loaded()?;
        if !self.book.has_room() {
            return Err(Refusal::TooManySaves);
        }
        let many = self.store.save()?;
        self.book.save();
        Ok(many)
    }

    /// Goes back to the newest save, domains and notes, and closes it; answers how many are open then.
    pub fn restore(&mut self) -> Result<u16, Refusal>
        ensures unloaded { loaded self.old ≡ None → result ≡ Err NoPlan }
        ensures whole { is_ok result ≡ false → self.new ≡ self.old }
        ensures made { Makes self.old restore (λ a. numbers (a ∷ [])) result self.new }
    {
        self.check_loaded()?;
        if !self.book.has_save() {
            return Err(Refusal::NoSave);
        }
        let many = self.store.restore()?;
        self.book.restore();
        Ok(many)
    }
}
