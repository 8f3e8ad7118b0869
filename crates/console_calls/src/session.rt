// From the input's bytes to the lines.
ghost use Rattle.std.specs.Prelude.{◌≡◌, ◌≤◌, true, length, Some, string_bytes, OnOk};
ghost use Rattle.model.specs.Plans.{Load};
ghost use Rattle.planner.specs.States.{loaded, state};
ghost use Rattle.console_calls.specs.Calls.{allows, word_of, call_of};
ghost use Rattle.console_calls.specs.Sessions.{Adds, Session};
ghost use Rattle.console_calls.specs.Making.{Lined};

use crate::call::CallKind;
use crate::lines::{add_denied, add_told};
use crate::make::make;
use console::lines::add_stop;
use model::bounds::WIDTH;
use planner::Planner;
use std::alloc::AllocError;
use store::Store;
use text::reader::Reader;

/// Makes the call of a field, and adds its line.
fn add_call<S: Store>(
    out: &mut String,
    planner: &mut Planner<S>,
    kind: CallKind,
    payload: &[u8],
) -> Result<(), AllocError>
    requires { allows kind (length payload.now) ≡ true }
    ensures { OnOk result ((load : Load) → loaded planner.old ≡ Some load → (loaded planner.new ≡ Some load) × Adds (string_bytes out.old) (string_bytes out.new) (Lined load.plan (call_of kind payload.now) (word_of kind) (state planner.old) (state planner.new))) }
{
    let mut list = [0; WIDTH];
    match make(planner, kind, payload, &mut list) {
        Ok(many) => add_told(out, kind, &list[..many]),
        Err(refusal) => add_denied(out, kind, refusal),
    }
}

/// Makes the calls from a place of the input on, and adds the line of each, up to the end or to a field that is no call.
pub fn add_calls<S: Store>(
    out: &mut String,
    planner: &mut Planner<S>,
    input: &[u8],
    read: usize,
) -> Result<(), AllocError>
    requires { read ≤ length input.now }
    ensures { OnOk result ((load : Load) → loaded planner.old ≡ Some load → Adds (string_bytes out.old) (string_bytes out.new) (Session load.plan input.now (state planner.old) read)) }
{
    let mut reader = Reader::at(input, read);
    while reader.place() < input.len() {
        match reader.next::<CallKind>() {
            Ok(field) => add_call(out, planner, field.kind, field.payload)?,
            Err(fault) => return add_stop(out, fault),
        }
    }
    Ok(())
}
