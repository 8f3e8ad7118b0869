// The lines that are printed.
// kept: functions on a String, as `write!` works on one; a struct round the text would only wrap it.
ghost use Rattle.std.specs.Prelude.{◌≡◌, IfOk, string_bytes, OnOk};
ghost use Rattle.plan.specs.Views.{load_of};
ghost use Rattle.console.specs.Lines.{plan_line, refused_line, stop_line, Appends};

use plan::Plan;
use std::alloc::{AllocError, Global};
use text::fault::Fault;

/// The line of an accepted plan.
pub fn plan_line(heap: Global, plan: &Plan) -> Result<String, AllocError>
    ensures { IfOk result (λ s. string_bytes s ≡ plan_line (load_of plan.now).plan) }
{
    let n = plan.gates();
    let w = plan.width();
    format!(in heap; "plan {n} {w}\n")
}

/// The line of a refused plan.
pub fn refused_line(heap: Global, fault: Fault) -> Result<String, AllocError>
    ensures { IfOk result (λ s. string_bytes s ≡ refused_line fault) }
{
    format!(in heap; "plan no {fault}\n")
}

/// Adds the line of a bad call field.
pub fn add_stop(out: &mut String, fault: Fault) -> Result<(), AllocError>
    ensures { OnOk result (Appends out.old out.new (stop_line fault)) }
{
    writeln!(out, "stop {fault}")
}
