// The fields of calls.
ghost use Rattle.std.specs.Prelude.{◌≡◌, Some};
ghost use Rattle.console_calls.specs.Calls.{call_kind, word_of};

use model::bounds::WIDTH;
use model::refusal::Refusal;
use std::fmt;
use text::field::Kinds;

/// What a call field is about.
#[derive(Clone, Copy, Debug, PartialEq, Eq, Hash)]
pub enum CallKind {
    Strike,
    Bind,
    Keep,
    Save,
    Restore,
    Note,
    Changes,
    Show,
}

// kept: `as`, since a constant is made of a constant, where `TryFrom` cannot be called.
/// The longest payload of keep: a gate, and as many positions as a gate can have.
const KEEP_LEN: u16 = 1 + WIDTH as u16;

impl Kinds for CallKind {
    ghost made = { call_kind };

    fn of(tag: u8, len: u16, left: usize) -> Result<CallKind, Refusal> {
        // kept: the bytes left are a guard of this one match, so that refusals 1, 2 and 3 and their order stand in one place.
        match (tag, len) {
            _ if left < usize::from(len) => Err(Refusal::Truncated),
            (0x11, 2) => Ok(CallKind::Strike),
            (0x12, 2) => Ok(CallKind::Bind),
            (0x13, 1..=KEEP_LEN) => Ok(CallKind::Keep),
            (0x14, 0) => Ok(CallKind::Save),
            (0x15, 0) => Ok(CallKind::Restore),
            (0x16, 1) => Ok(CallKind::Note),
            (0x17, 2) => Ok(CallKind::Changes),
            (0x1a, 1) => Ok(CallKind::Show),
            (0x11..=0x17 | 0x1a, _) => Err(Refusal::BadLength),
            _ => Err(Refusal::UnknownTag),
        }
    }
}

impl CallKind {
    /// The word of the call's line.
    pub fn word(self) -> &'static str
        ensures { result.now ≡ word_of self }
    {
        match self {
            CallKind::Strike => "strike",
            CallKind::Bind => "bind",
            CallKind::Keep => "keep",
            CallKind::Save => "save",
            CallKind::Restore => "restore",
            CallKind::Note => "note",
            CallKind::Changes => "changes",
            CallKind::Show => "show",
        }
    }
}

/// A call is told by its word.
impl fmt::Display for CallKind {
    ghost output = { λ kind. Some (word_of kind) };

    fn fmt<W: fmt::Write>(&self, f: &mut fmt::Formatter<W>) -> fmt::Result {
        f.write_str(self.word())
    }
}
