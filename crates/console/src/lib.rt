// What the program gateplan prints on its input: the lines, as one text.
#![tactic(auto)]

ghost use Rattle.std.specs.Prelude.{◌≡◌, ◌+◌, ◌≤◌, length, take, IfOk, IfSome, string_bytes, OnOk};
ghost use Rattle.std.specs.Io.Take.{take_inner, take_limit};
ghost use Rattle.console.specs.Lines.{Appends, most_input, behind_plan, printed};

use call::CallKind;
use lines::{add_stop, plan_line, refused_line};
use plan::read::read_plan;
use std::alloc::{AllocError, Global};
use std::io;
use std::io::{Read, Take};
use text::reader::Reader;

pub mod call;
pub mod lines;

/// The most bytes of input.
pub const INPUT: usize = 32768;

/// A reader of one byte more than is taken, by which a longer input is told.
fn limited<R: Read>(from: R) -> Take<R>
    ensures limit { take_limit result ≡ most_input + 1 }
    ensures inner { take_inner result ≡ from }
{
    from.take(INPUT as u64 + 1)
}

/// Reads the input; of a longer one only the first bytes, one more than is taken.
pub fn read_input<R: Read + Drop>(heap: Global, from: R) -> io::Result<Vec<u8>>
    ensures { IfSome (R.remaining from) (λ bytes. IfOk result (λ input. input.items ≡ take (most_input + 1) bytes)) }
{
    let mut input = Vec::new(heap);
    limited(from).read_to_end(&mut input)?;
    Ok(input)
}

/// Adds the lines of what stands behind the plan.
fn add_calls(out: &mut String, input: &[u8], read: usize) -> Result<(), AllocError>
    requires { read ≤ length input.now }
    ensures { OnOk result (Appends out.old out.new (behind_plan input.now read)) }
{
    if read == input.len() {
        return Ok(());
    }
    let mut reader = Reader::at(input, read);
    match reader.next::<CallKind>() {
        Ok(field) => match field.kind {},
        Err(fault) => add_stop(out, fault),
    }
}

/// All that the program prints on an input.
pub fn output(heap: Global, input: &[u8]) -> Result<String, AllocError>
    ensures { IfOk result (λ s. string_bytes s ≡ printed input.now) }
{
    if input.len() > INPUT {
        return String::from_str(heap, "too long\n");
    }
    match read_plan(input) {
        Ok(loaded) => {
            let mut out = plan_line(heap, &loaded.plan)?;
            add_calls(&mut out, input, loaded.read)?;
            Ok(out)
        }
        Err(fault) => refused_line(heap, fault),
    }
}
