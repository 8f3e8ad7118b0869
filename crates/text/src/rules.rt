// The fields that have a rule.
ghost use Rattle.std.specs.Prelude.{◌≡◌};
ghost use Rattle.std.specs.Option.{option_map};
ghost use Rattle.model.specs.Rules.{rule_of};
ghost use Rattle.text.specs.Payloads.{near_in, total_in, rule_in};

use crate::kind::RuleKind;
use crate::members::read_members;
use crate::numbers::{read_link, read_pair};
use model::rule::pair::{Near, NotAbove, Offset};
use model::rule::{Rule, Total};

/// The gates x and y, and the distance d.
fn read_near(payload: &[u8], gates: usize) -> Option<Rule>
    ensures { option_map rule_of result ≡ near_in payload.now gates }
{
    let [x, y, d] = payload else {
        return None;
    };
    let pair = read_pair(*x, *y, gates)?;
    Some(Rule::Near(Near { pair, d: *d }))
}

/// Low, high, which is not below it, and the members.
fn read_total(payload: &[u8], gates: usize) -> Option<Rule>
    ensures { option_map rule_of result ≡ total_in payload.now gates }
{
    let (low, rest) = payload.split_first_chunk()?;
    let (high, pairs) = rest.split_first_chunk()?;
    let low = u32::from_be_bytes(*low);
    let high = u32::from_be_bytes(*high);
    if low > high {
        return None;
    }
    let members = read_members(pairs, gates)?;
    Some(Rule::Total(Total { low, high, members }))
}

/// The rule that a payload has in a plan of so many gates, or `None` where a number is out of range or they do not go together.
pub fn read_rule(kind: RuleKind, payload: &[u8], gates: usize) -> Option<Rule>
    ensures { option_map rule_of result ≡ rule_in kind payload.now gates }
{
    match kind {
        RuleKind::Offset => {
            let (pair, c) = read_link(payload, gates)?;
            Some(Rule::Offset(Offset { pair, c }))
        }
        RuleKind::Near => read_near(payload, gates),
        RuleKind::NotAbove => {
            let (pair, c) = read_link(payload, gates)?;
            Some(Rule::NotAbove(NotAbove { pair, c }))
        }
        RuleKind::Total => read_total(payload, gates),
    }
}
