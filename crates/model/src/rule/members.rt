// The members of a Total.
ghost use Rattle.std.specs.Prelude.{◌≡◌, ◌≤◌, true, map, take};
ghost use Rattle.model.specs.Bounds.{most_members};
ghost use Rattle.model.specs.Members.{member_of, gates_differ};

use super::member::Member;
use crate::bounds::MEMBERS;

// kept: a fixed array with a count, since a rule is `Copy` and the library has no heap.
// It has no `==`, which would read the places past the count; so a rule and a plan have none.
/// The first `count` of the list, one at least. No gate is a member twice.
#[derive(Clone, Copy, Debug)]
pub struct Members {
    pub count: usize,
    pub list: [Member; MEMBERS],
    ghost some: { 1 ≤ count },
    ghost few: { count ≤ most_members },
    ghost differ: { gates_differ (map member_of (take count list)) ≡ true },
}
