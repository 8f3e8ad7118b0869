// A text, and how far it was read.
ghost use Rattle.std.specs.Prelude.{◌≤◌, length};

mod place;
mod walk;

/// Hands out the fields of a text, one a call.
#[derive(Debug, Drop)]
pub struct Reader<'a> {
    text: &'a [u8],
    at: usize,
    ghost inside: { at ≤ length text.now },
}
