// Runs cases: a line of standard input has a name and an input in hexadecimal, and what the program prints on it is printed behind the name.
// The input is given in parts, each of which may be repeated, as in `cafe ab*3`.
// Of a case whose name begins with `+` the plan is told too: what each gate starts with, and the rules.
#![tactic(auto)]

use cases::told::{NamedLines, ToldPlan};
use cases::{Case, for_each};
use console::output;
use std::io::BufRead;

/// Prints what the program prints on a case's input, and tells the plan.
fn run_case(rt: &HostRuntime, case: &Case<'_>) -> anyhow::Result<()> {
    let name = case.name;
    let text = output(rt.alloc(), case.input.as_slice())?;
    let text = text.as_str();
    print!(rt; "{}{}", NamedLines { name, text }, ToldPlan(case))?;
    Ok(())
}

fn main(rt: HostRuntime) -> anyhow::Result<()> {
    let mut reader = rt.reader();
    let mut line = String::new(rt.alloc());
    // A line at a time: what is printed of a case stands before the next is read, and no more than one line is held.
    for _ in 0..u64::MAX {
        line.clear();
        if reader.read_line(&mut line)? == 0 {
            break;
        }
        for_each(rt.alloc(), line.as_str(), |case| run_case(&rt, &case))?;
    }
    Ok(())
}
