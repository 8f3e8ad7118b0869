// A plan as read from its text.
#![tactic(auto)]

ghost use Rattle.std.specs.Prelude.{◌≤◌};
ghost use Rattle.model.specs.Bounds.{most_gates, most_width, most_rules};

use model::bounds::{GATES, RULES, WIDTH};
use model::rule::Rule;

mod draft;
mod questions;
pub mod read;
pub mod trials;

// kept: fixed tables with a count, since a plan is `Copy` and the library has no heap.
/// Gates, width, the positions that each gate starts with, and the first `count` of the rules, in text order.
#[derive(Clone, Copy, Debug)]
pub struct Plan {
    gates: usize,
    width: usize,
    starts: [[bool; WIDTH]; GATES],
    rules: [Rule; RULES],
    count: usize,
    ghost some_gates: { 1 ≤ gates },
    ghost few_gates: { gates ≤ most_gates },
    ghost some_positions: { 1 ≤ width },
    ghost few_positions: { width ≤ most_width },
    ghost few_rules: { count ≤ most_rules },
}
