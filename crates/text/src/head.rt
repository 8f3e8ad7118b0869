// The field that a plan begins with.
ghost use Rattle.std.specs.Prelude.{◌≡◌};
ghost use Rattle.text.specs.Payloads.{head_of};

use model::bounds::{GATES, WIDTH};

/// How many gates a plan has, and how many positions a gate has.
#[derive(Clone, Copy, Debug, PartialEq, Eq, Hash)]
pub struct Head {
    pub gates: usize,
    pub width: usize,
}

/// The numbers of Head, or `None` where one is out of range.
pub fn read_head(payload: &[u8]) -> Option<Head>
    ensures { result ≡ head_of payload.now }
{
    let [n, high, low] = payload else {
        return None;
    };
    let gates = usize::from(*n);
    let width = usize::from(u16::from_be_bytes([*high, *low]));
    if !(1..=GATES).contains(&gates) || !(1..=WIDTH).contains(&width) {
        return None;
    }
    Some(Head { gates, width })
}
