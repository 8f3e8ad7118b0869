// Strike, bind and keep: the store's.
ghost use Rattle.std.specs.Prelude.{◌≡◌, false, [], ◌∷◌, is_ok, None, Err};
ghost use Rattle.model.specs.declared.refusal.Refusal.TheVariants.{NoPlan};
ghost use Rattle.model.specs.Calls.{narrow, strike, bind, keep};
ghost use Rattle.model.specs.Answers.{numbers};
ghost use Rattle.planner.specs.States.{loaded, Makes};

use crate::Planner;
use model::refusal::Refusal;
use store::Store;

impl<S: Store> Planner<S> {
    /// Takes the position out of the gate's domain; answers 1, or 0 where it was not in it.
    pub fn strike(&mut self, g: usize, p: u16) -> Result<u16, Refusal>
        ensures unloaded { loaded self.old ≡ None → result ≡ Err NoPlan }
        ensures whole { is_ok result ≡ false → self.new ≡ self.old }
        ensures made { Makes self.old (narrow (strike g p)) (λ a. numbers (a ∷ [])) result self.new }
    {
        self.check_loaded()?;
        self.strike_loaded(g, p)
    }

    /// Takes all positions but this one out of the gate's domain; answers how many are left.
    pub fn bind(&mut self, g: usize, p: u16) -> Result<u16, Refusal>
        ensures unloaded { loaded self.old ≡ None → result ≡ Err NoPlan }
        ensures whole { is_ok result ≡ false → self.new ≡ self.old }
        ensures made { Makes self.old (narrow (bind g p)) (λ a. numbers (a ∷ [])) result self.new }
    {
        self.check_loaded()?;
        self.bind_loaded(g, p)
    }

    /// Takes all positions that the list lacks out of the gate's domain; answers how many are left.
    pub fn keep(&mut self, g: usize, list: &[u16]) -> Result<u16, Refusal>
        ensures unloaded { loaded self.old ≡ None → result ≡ Err NoPlan }
        ensures whole { is_ok result ≡ false → self.new ≡ self.old }
        ensures made { Makes self.old (narrow (keep g list.now)) (λ a. numbers (a ∷ [])) result self.new }
    {
        self.check_loaded()?;
        self.keep_loaded(g, list)
    }
}

// The store's calls, and what they are to a planner that was given a plan.
// kept: an inner method for each, as a closure would have to say of every store what each of the three does; without them the
// public calls have proof files, where a wrong edit would be refused first (tried: the search does not find them with the lemmas named).
impl<S: Store> Planner<S> {
    fn strike_loaded(&mut self, g: usize, p: u16) -> Result<u16, Refusal>
        ensures whole { is_ok result ≡ false → self.new ≡ self.old }
        ensures made { Makes self.old (narrow (strike g p)) (λ a. numbers (a ∷ [])) result self.new }
    {
        self.store.strike(g, p)
    }

    fn bind_loaded(&mut self, g: usize, p: u16) -> Result<u16, Refusal>
        ensures whole { is_ok result ≡ false → self.new ≡ self.old }
        ensures made { Makes self.old (narrow (bind g p)) (λ a. numbers (a ∷ [])) result self.new }
    {
        self.store.bind(g, p)
    }

    fn keep_loaded(&mut self, g: usize, list: &[u16]) -> Result<u16, Refusal>
        ensures whole { is_ok result ≡ false → self.new ≡ self.old }
        ensures made { Makes self.old (narrow (keep g list.now)) (λ a. numbers (a ∷ [])) result self.new }
    {
        self.store.keep(g, list)
    }
}
