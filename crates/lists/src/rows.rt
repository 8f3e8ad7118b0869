// Rows of marks, and what a store says of a gate in one.
ghost use Rattle.std.specs.Prelude.{◌≡◌, ℕ, ◌<◌, ◌≤◌, ◌++◌, length, filter, take, drop, slice_index};
ghost use Rattle.model.specs.Families.{has};
ghost use Rattle.model.specs.Bounds.{most_width};
ghost use Rattle.store.specs.Meaning.{domains};
ghost use Rattle.lists.specs.Lists.{Marks, marked, Written, alike_at, alike};

use model::bounds::{GATES, WIDTH};
use store::Store;

/// For each position, whether it is marked.
// kept: a plain array behind a name; each use writes, reads or copies it as one, and a struct would only wrap and unwrap it.
pub type Row = [bool; WIDTH];

/// How many of the first w places are marked.
fn count_marked(row: &Row, w: u16) -> usize
    requires { w ≤ most_width }
    ensures { result ≡ length (filter (λ mark. mark) (take w row.now)) }
{
    row[..usize::from(w)]
        .iter()
        .map(|&mark| usize::from(mark))
        .sum()
}

/// Writes the marked places, ascending, at the front of a list that has room for them.
fn put_marked(row: &Row, w: u16, list: &mut [u16])
    requires width { w ≤ most_width }
    requires room { length (marked row.now w) ≤ length list.old }
    ensures { list.new ≡ marked row.now w ++ drop (length (marked row.now w)) list.old }
{
    // kept: a count of its own: by `(0..w).filter(..)`, enumerated, a show or changes of 256 positions took up to 1.6 times the instructions
    let mut k: usize = 0;
    for (p, &marked) in row[..usize::from(w)].iter().enumerate() {
        if marked {
            // kept: `as`, since p is below w; `try_from` would add a way out that does not come
            list[k] = p as u16;
            k += 1;
        }
    }
}

/// Writes the marked places, ascending, at the front of the list, if it has room for them.
#[tactic(auto, using(crate::proofs::Marking::marked_count))]
pub fn write_marked(row: &Row, w: u16, list: &mut [u16]) -> Option<usize>
    requires { w ≤ most_width }
    ensures { Written (marked row.now w) list.old result list.new }
{
    // counted first, so that a list that is too short stays as it was
    let n = count_marked(row, w);
    if list.len() < n {
        return None;
    }
    put_marked(row, w, list);
    Some(n)
}

/// How many positions have left the gate: none where there is no such gate.
#[tactic(auto, using(crate::proofs::Marking::left_and_gone))]
fn gone_length<S: Store>(store: &S, g: usize) -> u16
    ensures { result ≡ length ((S.mean store.now).gone g) }
{
    let width = store.width();
    width - store.count(g).unwrap_or(width)
}

/// How many positions have left each gate.
pub fn gone_lengths<S: Store>(store: &S) -> [u16; GATES]
    ensures { (g : ℕ) → g < (S.mean store.now).gates → slice_index result g ≡ length ((S.mean store.now).gone g) }
{
    let mut row = [0; GATES];
    // of the gates that there are alone: a small plan is not to cost as much as a large one
    for (g, length) in row[..store.gates()].iter_mut().enumerate() {
        *length = gone_length(store, g);
    }
    row
}

// kept: that the gate is there stands in the requires of these three: a value that bears it out would hold the store's loan.
/// The k-th position that has left the gate.
fn gone_at<S: Store>(store: &S, g: usize, k: usize) -> u16
    requires gate { g < (S.mean store.now).gates }
    requires place { k < length ((S.mean store.now).gone g) }
    ensures { result ≡ slice_index ((S.mean store.now).gone g) k }
{
    store.gone(g, k).unwrap_or(None).unwrap_or(0)
}

/// Marks the positions that have left the gate, from one place of its gone list to another.
fn gone_between<S: Store>(store: &S, g: usize, from: usize, end: usize) -> Row
    requires gate { g < (S.mean store.now).gates }
    requires end { end ≤ length ((S.mean store.now).gone g) }
    ensures { end ≡ length ((S.mean store.now).gone g) → Marks result most_width (has (drop from ((S.mean store.now).gone g))) }
{
    let mut row = [false; WIDTH];
    // kept: `(from..end).for_each(|k| row[usize::from(gone_at(store, g, k))] = true)` is no plainer, and left `returns` open: no proof knows the row after it.
    for k in from..end {
        let p = gone_at(store, g, k);
        row[usize::from(p)] = true;
    }
    row
}

/// Marks the positions that have left the gate, from the k-th on.
pub fn gone_since<S: Store>(store: &S, g: usize, from: usize) -> Row
    requires { g < (S.mean store.now).gates }
    ensures { Marks result most_width (has (drop from ((S.mean store.now).gone g))) }
{
    let end = usize::from(gone_length(store, g));
    gone_between(store, g, from, end)
}

/// Marks the positions open to the gate.
pub fn open_row<S: Store>(store: &S, g: usize) -> Row
    ensures { Marks result (S.mean store.now).width (domains (S.mean store.now) g) }
{
    let mut row = [false; WIDTH];
    // kept: `(0..store.width()).zip(row.iter_mut())` tells a proof nothing of the row, and array::from_fn would ask the store for all WIDTH positions,
    // not those that there are. `row[..].iter_mut().enumerate()`, which narrows p by `as`, is still to be tried.
    for p in 0..store.width() {
        row[usize::from(p)] = store.is_open(g, p);
    }
    row
}

/// Whether the same positions are open to the gate in both.
fn alike_at<S: Store, R: Store>(one: &S, two: &R, g: usize) -> bool
    ensures { result ≡ alike_at (S.mean one.now) (R.mean two.now) g }
{
    (0..one.width()).all(|p| one.is_open(g, p) == two.is_open(g, p))
}

/// Whether the same positions are open to every gate in both.
pub fn alike<S: Store, R: Store>(one: &S, two: &R) -> bool
    ensures { result ≡ alike (S.mean one.now) (R.mean two.now) }
{
    (0..one.gates()).all(|g| alike_at(one, two, g))
}
