// Numbers that stand in several payloads.
ghost use Rattle.std.specs.Prelude.{◌≡◌};
ghost use Rattle.std.specs.Option.{option_map};
ghost use Rattle.text.specs.Payloads.{pair_of, shift_of, gates_of, link_in, link_of};

use model::bounds::SHIFT;
use model::rule::pair::Pair;

/// Two different gates of a plan.
pub(crate) fn read_pair(x: u8, y: u8, gates: usize) -> Option<Pair>
    ensures { option_map gates_of result ≡ pair_of gates x y }
{
    if usize::from(x) >= gates || usize::from(y) >= gates || x == y {
        return None;
    }
    Some(Pair { x, y })
}

/// The constant c of a rule: two's complement, high byte first.
fn read_shift(high: u8, low: u8) -> Option<i16>
    ensures { result ≡ shift_of high low }
{
    let c = i16::from_be_bytes([high, low]);
    (-SHIFT..=SHIFT).contains(&c).then_some(c)
}

/// The gates x and y, and the constant c.
pub(crate) fn read_link(payload: &[u8], gates: usize) -> Option<(Pair, i16)>
    ensures { option_map link_of result ≡ link_in payload.now gates }
{
    let [x, y, high, low] = payload else {
        return None;
    };
    Some((read_pair(*x, *y, gates)?, read_shift(*high, *low)?))
}
