// Reads a plan and calls from standard input, and prints what console says.
#![tactic(auto)]

use console::{output, read_input};
use std::io;

fn main(rt: HostRuntime) -> io::Result<()> {
    let input = read_input(rt.alloc(), rt.stdin())?;
    let text = output(rt.alloc(), input.as_slice())?;
    rt.print(text)
}
