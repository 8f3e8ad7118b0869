// One field after another.
ghost use Rattle.std.specs.Prelude.{◌≡◌, ◌≤◌, length};
ghost use Rattle.text.specs.Readers.{text_of, place_of};
ghost use Rattle.text.specs.Fields.{prefix_at, field_at, next_at, seen};

use super::Reader;
use crate::fault::Fault;
use crate::field::{Field, Kinds};
use model::refusal::Refusal;

/// How many bytes stand before a payload: the tag, and a length of two bytes.
const PREFIX: usize = 3;

/// The tag and the length at a place, or `None` where fewer than three bytes are left.
fn prefix(text: &[u8], at: usize) -> Option<(u8, u16)>
    requires { at ≤ length text.now }
    ensures { result ≡ prefix_at text.now at }
{
    let [tag, high, low, ..] = &text[at..] else {
        return None;
    };
    Some((*tag, u16::from_be_bytes([*high, *low])))
}

/// The field at a place; its payload is the part of the text behind its prefix.
fn field_at<'a, K: Kinds>(text: &'a [u8], place: usize) -> Result<Field<'a, K>, Fault>
    requires { place ≤ length text.now }
    ensures value { seen result ≡ field_at K.made text.now place }
    ensures inside { next_at (seen result) place ≤ length text.now }
{
    // kept: a rule of the project: a field that is not there is left by `let .. else`, with number and place.
    let Some((tag, len)) = prefix(text, place) else {
        return Err(Fault {
            refusal: Refusal::Truncated,
            place,
        });
    };
    let start = place + PREFIX;
    let kind = K::of(tag, len, text.len() - start).map_err(|refusal| Fault { refusal, place })?;
    let payload = &text[start..start + usize::from(len)];
    Ok(Field {
        kind,
        place,
        payload,
    })
}

impl<'a> Reader<'a> {
    /// The next field, behind which the reader then stands, or a fault, which leaves it where it was.
    pub fn next<K: Kinds>(&mut self) -> Result<Field<'a, K>, Fault>
        ensures value { seen result ≡ field_at K.made (text_of self.old) (place_of self.old) }
        ensures text { text_of self.new ≡ text_of self.old }
        ensures at { place_of self.new ≡ next_at (seen result) (place_of self.old) }
    {
        let field = field_at(self.text, self.at)?;
        self.at += PREFIX + field.payload.len();
        Ok(field)
    }
}
