// The planner: a plan, a store that holds the domains, and the notes of the readers.
#![tactic(auto)]

ghost use Rattle.planner.specs.Holdings.{HoldsGiven, HoldsGiven-prop};

use book::Book;
use plan::Plan;
use store::Store;

mod begin;
mod checks;
mod load;
mod narrow;
mod questions;
mod readers;
mod saves;

// kept: that a call is refused without a plan, and that a refused call leaves all as it was, are clauses of each call, as they are its promises.
/// Each open save is a mark of the store with the book's notes beside it.
#[derive(Drop)]
pub struct Planner<S: Store> {
    store: S,
    plan: Option<Plan>,
    book: Book,
    ghost held: { HoldsGiven (S.mean store) plan book.depth } by { HoldsGiven-prop (S.mean store) plan book.depth },
}
