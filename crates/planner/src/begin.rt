// A store begins with a plan: its gates and positions, and what each gate starts with.
ghost use Rattle.std.specs.Prelude.{◌≡◌, ◌<◌, false, is_ok, Ok};
ghost use Rattle.model.specs.Bounds.{most_width};
ghost use Rattle.plan.specs.Views.{load_of};
ghost use Rattle.lists.specs.Lists.{Marks};
ghost use Rattle.planner.specs.Loads.{Starts, Begun, begin_answer};

use lists::rows::{Row, write_marked};
use model::bounds::WIDTH;
use model::refusal::Refusal;
use plan::Plan;
use store::Store;

/// Marks the positions that the gate starts with.
fn start_row(plan: &Plan, g: usize) -> Row
    ensures { Marks result most_width ((load_of plan.now).start g) }
{
    let mut row = [false; WIDTH];
    for (p, mark) in row.iter_mut().enumerate() {
        *mark = plan.starts_with(g, p);
    }
    row
}

/// Keeps the positions that the gate starts with.
fn keep_starts<S: Store>(store: &mut S, plan: &Plan, g: usize)
    ensures { g < (S.mean store.old).gates → Starts (S.mean store.old) g ((load_of plan.now).start g) (S.mean store.new) }
{
    let row = start_row(plan, g);
    // The list has a place for every position, so they are always written.
    let mut list = [0; WIDTH];
    if let Some(many) = write_marked(&row, store.width(), &mut list) {
        let _ = store.keep(g, &list[..many]);
    }
}

/// Resets the store to the plan's gates and positions, and keeps what each gate starts with.
pub fn begin<S: Store>(store: &mut S, plan: &Plan) -> Result<(), Refusal>
    ensures answer { result ≡ begin_answer (S.mean store.old).cells (load_of plan.now) }
    ensures whole { is_ok result ≡ false → store.new ≡ store.old }
    ensures begun { result ≡ Ok tt → Begun (load_of plan.now) (S.mean store.new) }
{
    let n = plan.gates();
    // kept: `as`, since a width is within u16; `try_from` would add a way out that does not come
    store.reset(n, plan.width() as u16)?;
    for g in 0..n {
        keep_starts(store, plan, g);
    }
    Ok(())
}
