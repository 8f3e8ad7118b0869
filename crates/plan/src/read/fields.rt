// From a text's bytes to its plan.
ghost use Rattle.std.specs.Prelude.{◌≡◌};
ghost use Rattle.text.specs.Readers.{text_of, place_of};
ghost use Rattle.plan.specs.Plans.{is_head, plan_text};
ghost use Rattle.plan.specs.Meanings.{MeansOnly, Sound};
ghost use Rattle.plan.specs.Drafts.{Begun, seen_plan};

use super::Loaded;
use crate::draft::{Draft, judge};
use text::fault::Fault;
use text::head::read_head;
use text::kind::PlanKind;
use text::reader::Reader;

/// Whether a field is Head.
fn is_head(kind: PlanKind) -> bool
    ensures { result ≡ is_head kind }
{
    kind == PlanKind::Head
}

/// Takes the first field, which has to be Head.
fn begin(reader: &mut Reader) -> Result<Draft, Fault>
    ensures begun { place_of reader.old ≡ 0 → Begun (text_of reader.old) (place_of reader.new) result }
    ensures text { text_of reader.new ≡ text_of reader.old }
{
    let first = reader.next()?;
    let head = judge(
        &first,
        !is_head(first.kind),
        read_head(first.payload),
        false,
    )?;
    Ok(Draft::new(head))
}

/// Reads the fields of a plan, up to and with End.
fn read_fields(text: &[u8]) -> Result<Loaded, Fault>
    ensures { seen_plan result ≡ plan_text text.now }
{
    let mut reader = Reader::new(text);
    let mut draft = begin(&mut reader)?;
    loop {
        let field = reader.next()?;
        draft.take(&field)?;
        if field.kind == PlanKind::End {
            return Ok(Loaded {
                plan: draft.plan,
                read: reader.place(),
            });
        }
    }
}

/// The plan that a text begins with, and the bytes that it takes up to and with its End; or the text's first fault.
pub fn read_plan(text: &[u8]) -> Result<Loaded, Fault>
    ensures value { seen_plan result ≡ plan_text text.now }
    ensures meaning { MeansOnly text.now (seen_plan result) }
    ensures sound { Sound text.now (seen_plan result) }
{
    read_fields(text)
}
