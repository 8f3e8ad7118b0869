// What the program gateplan_calls prints on its input: the lines, as one text.
#![tactic(auto)]

ghost use Rattle.std.specs.Prelude.{IfOk, string_bytes};
ghost use Rattle.console_calls.specs.Sessions.{Prints};

use bounds::Bounds;
use console::lines::refused_line;
use lines::plan_line;
use planner::Planner;
use session::add_calls;
use std::alloc::{AllocError, Global};
use store::Store;

pub mod call;
mod lines;
mod make;
mod session;

pub use console::{INPUT, read_input};

/// All that is printed on an input, with the planner over this store.
pub fn output<S: Store + Drop>(heap: Global, store: S, input: &[u8]) -> Result<String, AllocError>
    ensures { IfOk result (λ s. Prints (S.mean store).cells input.now (string_bytes s)) }
{
    if input.len() > INPUT {
        return String::from_str(heap, "too long\n");
    }
    let mut planner = Planner::new(store);
    match planner.load(input) {
        Ok(read) => {
            let mut out = plan_line(heap, &planner)?;
            add_calls(&mut out, &mut planner, input, read)?;
            Ok(out)
        }
        Err(fault) => refused_line(heap, fault),
    }
}

/// The same with a keeper of bounds on the store.
pub fn kept_output<S: Store + Drop>(
    heap: Global,
    store: S,
    input: &[u8],
) -> Result<String, AllocError>
    ensures { IfOk result (λ s. Prints (S.mean store).cells input.now (string_bytes s)) }
{
    output(heap, Bounds::over(store), input)
}
