// Calls that no input of the program makes: on a store, and on a planner before a load and with lists that are too short.
use crate::log::Log;
use model::bounds::MARKS;
use planner::Planner;
use std::alloc::{AllocError, Global};
use store::Store;

/// A plan of two gates and four positions, where gate 1 starts with 1 and 2.
const PLAN: [u8; 15] = [1, 0, 3, 2, 0, 4, 2, 0, 3, 1, 1, 2, 7, 0, 0];
/// Where it is cut, in its second field.
const CUT: usize = 10;

// kept: the log and the store stay two parameters; as one struct each call would be `self.log.add(.., self.store...)`, which is no plainer.

/// What a store answers to the questions on one gate.
fn add_gate<S: Store>(log: &mut Log, s: &S, g: usize) -> Result<(), AllocError> {
    log.add("count", s.count(g))?;
    log.add_found("lowest", s.lowest(g))?;
    log.add_found("highest", s.highest(g))?;
    log.add_found("gone 256", s.gone(g, 256))?;
    log.add_yes("contains 3", s.contains(g, 3))
}

fn add_sizes<S: Store>(log: &mut Log, s: &S) -> Result<(), AllocError> {
    log.tell("holds", s.holds())?;
    log.tell("gates", s.gates())?;
    log.tell("width", s.width())
}

/// Resets below, at and above the bounds.
fn add_resets<S: Store>(log: &mut Log, s: &mut S) -> Result<(), AllocError> {
    log.add("strike", s.strike(0, 0))?;
    log.add_done("reset 0 5", s.reset(0, 5))?;
    log.add_done("reset 33 5", s.reset(33, 5))?;
    log.add_done("reset 5 0", s.reset(5, 0))?;
    log.add_done("reset 5 257", s.reset(5, 257))?;
    log.add_done("reset 32 256", s.reset(32, 256))
}

/// Two positions leave, and are found in that order.
fn add_leaving<S: Store>(log: &mut Log, s: &mut S) -> Result<(), AllocError> {
    log.add("strike 30 9", s.strike(30, 9))?;
    log.add("strike 30 4", s.strike(30, 4))?;
    log.add_found("gone 0", s.gone(30, 0))?;
    log.add_found("gone 1", s.gone(30, 1))?;
    log.add_found("gone 2", s.gone(30, 2))
}

/// Narrowings at a gate and at positions that there are not.
fn add_refused<S: Store>(log: &mut Log, s: &mut S) -> Result<(), AllocError> {
    log.add("strike 32 0", s.strike(32, 0))?;
    log.add("strike 31 256", s.strike(31, 256))?;
    log.add("bind 32 256", s.bind(32, 256))?;
    log.add("bind 31 256", s.bind(31, 256))?;
    log.add("keep 32", s.keep(32, &[256]))?;
    log.add("keep 31 0 256", s.keep(31, &[0, 256]))
}

/// A gate is narrowed until nothing is left, and restored.
fn add_emptied<S: Store>(log: &mut Log, s: &mut S) -> Result<(), AllocError> {
    log.add("save", s.save())?;
    log.add("keep 31 3 3 7 3", s.keep(31, &[3, 3, 7, 3]))?;
    add_gate(log, s, 31)?;
    log.add("strike 31 3", s.strike(31, 3))?;
    log.add("strike 31 3", s.strike(31, 3))?;
    log.add("bind 31 3", s.bind(31, 3))?;
    add_gate(log, s, 31)?;
    log.add("restore", s.restore())?;
    add_gate(log, s, 31)
}

/// One mark more than there may be, and a reset that removes them all.
fn add_marks<S: Store>(log: &mut Log, s: &mut S) -> Result<(), AllocError> {
    for _ in 0..MARKS + 1 {
        log.add("save", s.save())?;
    }
    log.add_done("reset 1 3", s.reset(1, 3))?;
    log.add("restore", s.restore())?;
    log.add("keep 0", s.keep(0, &[]))?;
    add_gate(log, s, 0)?;
    add_gate(log, s, 1)
}

/// Every refusal of a store, and every bound.
pub fn on_store<S: Store + Drop>(heap: Global, mut s: S) -> Result<String, AllocError> {
    let mut log = Log::new(heap);
    add_sizes(&mut log, &s)?;
    add_resets(&mut log, &mut s)?;
    add_sizes(&mut log, &s)?;
    add_gate(&mut log, &s, 31)?;
    add_leaving(&mut log, &mut s)?;
    add_refused(&mut log, &mut s)?;
    add_emptied(&mut log, &mut s)?;
    add_marks(&mut log, &mut s)?;
    Ok(log.into_text())
}

/// Questions with a list of two places.
fn add_asked<S: Store>(log: &mut Log, planner: &mut Planner<S>) -> Result<(), AllocError> {
    let mut list = [9; 2];
    log.add("show", planner.show(0, &mut list))?;
    log.add_list(&list)?;
    log.add("strike", planner.strike(0, 3))?;
    log.add("changes", planner.changes(0, 0, &mut list))?;
    log.add_list(&list)?;
    log.add("strike", planner.strike(0, 2))?;
    log.add("strike", planner.strike(0, 0))?;
    log.add("changes", planner.changes(0, 0, &mut list))?;
    log.add_list(&list)?;
    log.add("show", planner.show(0, &mut list))?;
    log.add_list(&list)
}

fn add_noted<S: Store>(log: &mut Log, planner: &mut Planner<S>) -> Result<(), AllocError> {
    let mut list = [9; 2];
    log.add_done("note 4", planner.note(4))?;
    log.add_done("note 3", planner.note(3))?;
    log.add("changes 4", planner.changes(4, 9, &mut list))?;
    log.add("changes 3", planner.changes(3, 9, &mut list))
}

/// Every call, made on a planner that may hold no plan.
fn add_calls<S: Store>(log: &mut Log, planner: &mut Planner<S>) -> Result<(), AllocError> {
    log.add("save", planner.save())?;
    add_asked(log, planner)?;
    log.add("bind", planner.bind(0, 1))?;
    log.add("keep", planner.keep(1, &[2]))?;
    add_noted(log, planner)?;
    log.add("restore", planner.restore())?;
    log.add("restore", planner.restore())
}

/// Strikes on the one and on the other, and loads of the first again.
fn add_apart<S: Store, R: Store>(
    log: &mut Log,
    first: &mut Planner<S>,
    second: &mut Planner<R>,
) -> Result<(), AllocError> {
    log.add("strike", first.strike(1, 2))?;
    log.add_yes("same", first.same(second))?;
    log.add("strike", second.strike(1, 2))?;
    log.add_yes("same", first.same(second))?;
    log.add("load", first.load(&PLAN[..CUT]))?;
    log.add_yes("same", first.same(second))?;
    log.add("load", first.load(&PLAN))?;
    log.add_yes("same", first.same(second))
}

/// Loads of the one and of the other.
fn add_loads<S: Store, R: Store>(
    log: &mut Log,
    first: &mut Planner<S>,
    second: &mut Planner<R>,
) -> Result<(), AllocError> {
    log.add_yes("same", first.same(second))?;
    log.add("load", first.load(&PLAN))?;
    log.add_yes("same", first.same(second))?;
    log.add_yes("same", second.same(first))?;
    log.add("load", second.load(&PLAN))?;
    log.add_yes("same", first.same(second))
}

/// The calls before a load, behind a refused one, and behind an accepted one; and whether two planners agree.
pub fn on_planners<S: Store + Drop, R: Store + Drop>(
    heap: Global,
    one: S,
    two: R,
) -> Result<String, AllocError> {
    let mut log = Log::new(heap);
    let mut first = Planner::new(one);
    let mut second = Planner::new(two);
    add_calls(&mut log, &mut first)?;
    log.add("load", first.load(&PLAN[..CUT]))?;
    add_calls(&mut log, &mut first)?;
    add_loads(&mut log, &mut first, &mut second)?;
    add_calls(&mut log, &mut first)?;
    log.add_yes("same", first.same(&second))?;
    add_apart(&mut log, &mut first, &mut second)?;
    Ok(log.into_text())
}
