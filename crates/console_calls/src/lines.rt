// The lines that are printed beside those of the program that knows no calls.
// kept: functions on a String, here and in console, as `write!` works on one; a struct round the text would only wrap it.
ghost use Rattle.std.specs.Prelude.{◌≡◌, [], ◌∷◌, IfOk, Some, string_bytes, OnOk};
ghost use Rattle.model.specs.Plans.{Load};
ghost use Rattle.planner.specs.States.{loaded};
ghost use Rattle.console.specs.Lines.{Appends, plan_line};
ghost use Rattle.console_calls.specs.Calls.{word_of};
ghost use Rattle.console_calls.specs.Lines.{spaced, told_line, denied_line};

use crate::call::CallKind;
use console::lines;
use model::refusal::Refusal;
use planner::Planner;
use std::alloc::{AllocError, Global};
use store::Store;

/// The line of the plan that was loaded; there is none before a load.
pub fn plan_line<S: Store>(heap: Global, planner: &Planner<S>) -> Result<String, AllocError>
    ensures { IfOk result (λ s. (load : Load) → loaded planner.now ≡ Some load → string_bytes s ≡ plan_line load.plan) }
{
    match planner.plan() {
        Some(plan) => lines::plan_line(heap, plan),
        None => Ok(String::new(heap)),
    }
}

/// Adds a number behind a space.
fn add_number(out: &mut String, n: u16) -> Result<(), AllocError>
    ensures { OnOk result (Appends out.old out.new (spaced (n ∷ []))) }
{
    write!(out, " {n}")
}

/// Adds the line of a call and the numbers that it told.
pub fn add_told(out: &mut String, kind: CallKind, numbers: &[u16]) -> Result<(), AllocError>
    ensures { OnOk result (Appends out.old out.new (told_line (word_of kind) numbers.now)) }
{
    write!(out, "{kind}")?;
    for n in numbers {
        add_number(out, *n)?;
    }
    writeln!(out)
}

/// Adds the line of a refused call.
pub fn add_denied(out: &mut String, kind: CallKind, refusal: Refusal) -> Result<(), AllocError>
    ensures { OnOk result (Appends out.old out.new (denied_line (word_of kind) refusal)) }
{
    writeln!(out, "{kind} no {refusal}")
}
