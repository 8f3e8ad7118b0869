// The members of a Total: a gate and a weight in each two bytes.
ghost use Rattle.std.specs.Prelude.{◌≡◌, map};
ghost use Rattle.std.specs.Option.{option_map};
ghost use Rattle.model.specs.Members.{member_of, has_gate};
ghost use Rattle.model.specs.Rules.{listed};
ghost use Rattle.text.specs.Payloads.{members_of};

use model::bounds::MEMBERS;
use model::rule::member::Member;
use model::rule::members::Members;

/// Whether a gate is among members.
fn is_member(members: &[Member], gate: u8) -> bool
    ensures { result ≡ has_gate (map member_of members.now) gate }
{
    members.iter().any(|m| m.gate == gate)
}

/// Members, or `None` where there is none, or where one's gate is not below `gates` or stands twice.
pub(crate) fn read_members(pairs: &[u8], gates: usize) -> Option<Members>
    ensures { option_map listed result ≡ members_of pairs.now gates }
{
    let count = pairs.len() / 2;
    if count < 1 || count > MEMBERS {
        return None;
    }
    let mut list = [Member { gate: 0, weight: 0 }; MEMBERS];
    for (i, pair) in pairs.chunks_exact(2).enumerate() {
        let (gate, weight) = (pair[0], pair[1]);
        if usize::from(gate) >= gates || is_member(&list[..i], gate) {
            return None;
        }
        list[i] = Member { gate, weight };
    }
    Some(Members { count, list })
}
