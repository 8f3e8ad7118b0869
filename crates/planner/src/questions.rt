// Questions on the domains.
ghost use Rattle.std.specs.Prelude.{◌≡◌, ◌↔◌, Bool, IsTrue, true, false, length, is_some, is_ok, None, Ok, Err};
ghost use Rattle.model.specs.declared.refusal.Refusal.TheVariants.{NoPlan};
ghost use Rattle.model.specs.Calls.{show};
ghost use Rattle.model.specs.Planners.{domain};
ghost use Rattle.planner.specs.States.{loaded, seen};
ghost use Rattle.planner.specs.Lists.{Asks, Fits, Agree};

use crate::Planner;
use lists::rows::{alike, open_row, write_marked};
use model::refusal::Refusal;
use plan::Plan;
use store::Store;

impl<S: Store> Planner<S> {
    /// The plan that was loaded.
    pub fn plan(&self) -> Option<&Plan>
        ensures { seen result ≡ loaded self.now }
    {
        self.plan.as_ref()
    }

    /// Writes the positions open to the gate, ascending, at the front of the list; answers their number.
    pub fn show(&self, g: usize, list: &mut [u16]) -> Result<usize, Refusal>
        ensures unloaded { loaded self.now ≡ None → result ≡ Err NoPlan }
        ensures refused { is_ok result ≡ false → list.new ≡ list.old }
        ensures fits { Fits list.old result }
        ensures asked { Asks self.now (show g (length list.old)) (λ plan s. domain plan s g) list.old result list.new }
    {
        self.check_loaded()?;
        self.store.check_gate(g)?;
        let row = open_row(&self.store, g);
        write_marked(&row, self.store.width(), list).ok_or(Refusal::ListTooShort)
    }

    /// Whether gate count, width and all domains agree, on stores of any two kinds.
    pub fn same<R: Store>(&self, other: &Planner<R>) -> Result<bool, Refusal>
        ensures unloaded { loaded self.now ≡ None → result ≡ Err NoPlan }
        ensures other { loaded other.now ≡ None → result ≡ Err NoPlan }
        ensures agree { is_some self.now.plan ≡ true → is_some other.now.plan ≡ true → ((b : Bool) × (result ≡ Ok b) × (IsTrue b ↔ Agree (S.mean self.now.store) (R.mean other.now.store))) }
    {
        self.check_loaded()?;
        other.check_loaded()?;
        let (one, two) = (&self.store, &other.store);
        Ok(one.gates() == two.gates() && one.width() == two.width() && alike(one, two))
    }
}
