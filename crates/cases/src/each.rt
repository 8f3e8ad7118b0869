// The cases of a text, one on each line.
ghost use Rattle.std.specs.Prelude.{OnOk};
ghost use Rattle.std.specs.List.{FoldsTo};
ghost use Rattle.std.specs.Str.Lines.{lines};
ghost use Rattle.cases.specs.Runs.{RunsOn};

use crate::{Case, CaseError};
use std::alloc::Global;

/// Runs the closure on the case of a line.
fn run_on<E: From<CaseError>, F: FnMut(Case<'_>) -> Result<(), E>>(
    heap: Global,
    line: &str,
    run: &mut F,
) -> Result<(), E>
    requires { F.IsAlwaysCallable run.old }
    ensures ran { OnOk result (RunsOn F.step run.old line.now run.new) }
    ensures callable { F.IsAlwaysCallable run.new }
{
    run(Case::read(heap, line)?)?;
    Ok(())
}

/// Hands the case of each line to `run`, in order, up to the first error.
#[tactic(auto, using(crate::proofs::Folds::folds_over_more))]
pub fn for_each<E: From<CaseError>, F: FnMut(Case<'_>) -> Result<(), E>>(
    heap: Global,
    text: &str,
    mut run: F,
) -> Result<(), E>
    requires { F.IsAlwaysCallable run }
    ensures { OnOk result ((last : F) × FoldsTo (RunsOn F.step) run (lines text.now) last) }
{
    for line in text.lines() {
        run_on(heap, line, &mut run)?;
    }
    Ok(())
}
