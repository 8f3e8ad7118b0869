// Reads a plan and calls from standard input, and prints what console_calls says, over a keeper of bounds on a sparse store.
#![tactic(auto)]

use console_calls::{kept_output, read_input};
use model::bounds::CELLS;
use sparse::Sparse;
use std::io;

fn main(rt: HostRuntime) -> io::Result<()> {
    let input = read_input(rt.alloc(), rt.stdin())?;
    let mut dom = [0; CELLS];
    let mut map = [0; CELLS];
    let store = Sparse::new(&mut dom, &mut map);
    let text = kept_output(rt.alloc(), store, input.as_slice())?;
    rt.print(text)
}
