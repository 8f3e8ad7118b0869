// Runs cases: a line of standard input has a name and an input in hexadecimal, and what the program prints on it is printed behind the name.
// Behind them come the calls that no input makes.
// The input is given in parts, each of which may be repeated, as in `cafe ab*3`.
// Each is run over every kind of store, and it is told where one prints something else than the first.
// Of a case whose name begins with `+` the plan is told too: what each gate starts with, and the rules.
#![tactic(auto)]

use cases::told::{NamedLines, ToldPlan};
use cases::{Case, for_each};
use std::io::BufRead;

mod direct;
mod log;
mod stores;

use stores::{Job, Kind, PlannerCalls, Program, StoreCalls, run_over};

/// The kinds that are held to the first.
const OTHERS: [Kind; 5] = [
    Kind::Bits,
    Kind::KeptSparse,
    Kind::KeptBits,
    Kind::PiledSparse,
    Kind::PiledBits,
];

/// Runs a job over each kind of store, and prints what comes of it once.
fn run_job<J: Job>(rt: &HostRuntime, name: &str, job: &J) -> anyhow::Result<()> {
    let text = run_over(rt.alloc(), Kind::Sparse, job)?;
    let text = text.as_str();
    print!(rt; "{}", NamedLines { name, text })?;
    for kind in OTHERS {
        let other = run_over(rt.alloc(), kind, job)?;
        if other.as_str() != text {
            println!(rt; "{name}: over {kind} it is another text")?;
        }
    }
    Ok(())
}

/// Runs the program on a case's input, and tells the plan.
fn run_case(rt: &HostRuntime, case: &Case<'_>) -> anyhow::Result<()> {
    run_job(rt, case.name, &Program(case.input.as_slice()))?;
    print!(rt; "{}", ToldPlan(case))?;
    Ok(())
}

fn main(rt: HostRuntime) -> anyhow::Result<()> {
    let mut reader = rt.reader();
    let mut line = String::new(rt.alloc());
    // A line at a time: what is printed of a case stands before the next is read, and no more than one line is held.
    for _ in 0..u64::MAX {
        line.clear();
        if reader.read_line(&mut line)? == 0 {
            break;
        }
        for_each(rt.alloc(), line.as_str(), |case| run_case(&rt, &case))?;
    }
    run_job(&rt, "store", &StoreCalls)?;
    run_job(&rt, "planners", &PlannerCalls)
}
