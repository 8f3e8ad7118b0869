// One job over every kind of store.
use crate::direct::{on_planners, on_store};
use bits::Bits;
use bits::entry::Record;
use bounds::Bounds;
use bounds::layer::pile;
use console_calls::output;
use model::bounds::CELLS;
use sparse::Sparse;
use std::alloc::{AllocError, Global};
use std::fmt;
use store::Store;

/// The kinds of store, and the layers on them.
// kept: a switch, since stores of different types cannot stand in one list of values.
#[derive(Clone, Copy, Debug, PartialEq, Eq)]
pub enum Kind {
    Sparse,
    Bits,
    KeptSparse,
    KeptBits,
    PiledSparse,
    PiledBits,
}

impl fmt::Display for Kind {
    fn fmt<W: fmt::Write>(&self, f: &mut fmt::Formatter<W>) -> fmt::Result {
        let name = match self {
            Kind::Sparse => "sparse",
            Kind::Bits => "bits",
            Kind::KeptSparse => "keeper on sparse",
            Kind::KeptBits => "keeper on bits",
            Kind::PiledSparse => "two keepers on sparse",
            Kind::PiledBits => "two keepers on bits",
        };
        write!(f, "{name}")
    }
}

/// What is run over a store of any kind.
pub trait Job {
    fn run<S: Store + Drop>(&self, heap: Global, store: S) -> Result<String, AllocError>;
}

/// The program on an input.
#[derive(Clone, Copy)]
pub struct Program<'a>(pub &'a [u8]);

impl Job for Program<'_> {
    fn run<S: Store + Drop>(&self, heap: Global, store: S) -> Result<String, AllocError> {
        output(heap, store, self.0)
    }
}

/// The calls on a store that no input makes.
#[derive(Clone, Copy)]
pub struct StoreCalls;

impl Job for StoreCalls {
    fn run<S: Store + Drop>(&self, heap: Global, store: S) -> Result<String, AllocError> {
        on_store(heap, store)
    }
}

/// The calls on a planner that no input makes, beside a planner over a sparse store.
#[derive(Clone, Copy)]
pub struct PlannerCalls;

impl Job for PlannerCalls {
    fn run<S: Store + Drop>(&self, heap: Global, store: S) -> Result<String, AllocError> {
        let mut dom = [0; CELLS];
        let mut map = [0; CELLS];
        on_planners(heap, store, Sparse::new(&mut dom, &mut map))
    }
}

/// What comes of the job over a store of the kind.
pub fn run_over<J: Job>(heap: Global, kind: Kind, job: &J) -> Result<String, AllocError> {
    let mut dom = [0; CELLS];
    let mut map = [0; CELLS];
    let record = Record {
        gate: 0,
        position: 0,
    };
    let mut trail = [record; CELLS];
    match kind {
        Kind::Sparse => job.run(heap, Sparse::new(&mut dom, &mut map)),
        Kind::Bits => job.run(heap, Bits::new(&mut trail)),
        Kind::KeptSparse => job.run(heap, Bounds::over(Sparse::new(&mut dom, &mut map))),
        Kind::KeptBits => job.run(heap, Bounds::over(Bits::new(&mut trail))),
        Kind::PiledSparse => job.run(heap, pile(Sparse::new(&mut dom, &mut map))),
        Kind::PiledBits => job.run(heap, pile(Bits::new(&mut trail))),
    }
}
