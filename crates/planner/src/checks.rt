// What is refused before a call looks at the store.
ghost use Rattle.model.specs.Bounds.{readers};
ghost use Rattle.planner.specs.Checks.{PlanCheck, ReaderCheck};

use crate::Planner;
use model::bounds::READERS;
use model::refusal::Refusal;
use store::Store;

impl<S: Store> Planner<S> {
    ghost use Rattle.planner.specs.States.{loaded};

    /// Refuses a call where no plan is loaded.
    pub(crate) fn check_loaded(&self) -> Result<(), Refusal>
        ensures { PlanCheck (loaded self.now) result }
    {
        self.plan.as_ref().map(|_| ()).ok_or(Refusal::NoPlan)
    }
}

/// Refuses a reader that there is not.
pub(crate) fn check_reader(r: usize) -> Result<(), Refusal>
    ensures { ReaderCheck r result }
{
    if r < READERS {
        Ok(())
    } else {
        Err(Refusal::NoReader)
    }
}
