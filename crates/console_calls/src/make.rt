// The calls, made on a planner.
ghost use Rattle.std.specs.Prelude.{◌≡◌, ◌+◌, ◌≤◌, true, [], ◌∷◌, length, take, drop, slice_index};
ghost use Rattle.model.specs.Bounds.{most_width};
ghost use Rattle.model.specs.Calls.{narrow, strike, bind};
ghost use Rattle.model.specs.Answers.{numbers};
ghost use Rattle.planner.specs.States.{Makes};
ghost use Rattle.planner.specs.Lists.{Fits};
ghost use Rattle.console_calls.specs.Calls.{allows, call_of};
ghost use Rattle.console_calls.specs.Making.{Put};

use crate::call::CallKind;
use model::bounds::WIDTH;
use model::refusal::Refusal;
use planner::Planner;
use store::Store;

/// A byte of a payload. That it is there is known from the length; one that is not reads as 0.
fn byte(payload: &[u8], i: usize) -> u8
    ensures { result ≡ slice_index payload.now i }
{
    payload.get(i).copied().unwrap_or(0)
}

/// Writes the positions behind the gate of a keep at the front of the list; answers their number.
fn positions(payload: &[u8], list: &mut [u16; WIDTH]) -> usize
    requires { length payload.now ≤ 1 + most_width }
    ensures few { result ≤ most_width }
    ensures those { take result list.new ≡ drop 1 payload.now }
{
    let [_, listed @ ..] = payload else {
        return 0;
    };
    for (i, p) in listed.iter().enumerate() {
        list[i] = u16::from(*p);
    }
    listed.len()
}

/// Writes an answer of one number at the front of the list.
#[tactic(auto, using(crate::proofs::Fronts::put_first))]
fn put(answer: Result<u16, Refusal>, list: &mut [u16]) -> Result<usize, Refusal>
    requires { 1 ≤ length list.old }
    ensures { Put answer list.old result list.new }
{
    list[0] = answer?;
    Ok(1)
}

/// The planner's strike. A function of its own, so that another call in its place is refused here.
fn strike<S: Store>(planner: &mut Planner<S>, g: usize, p: u16) -> Result<u16, Refusal>
    ensures { Makes planner.old (narrow (strike g p)) (λ a. numbers (a ∷ [])) result planner.new }
{
    planner.strike(g, p)
}

/// The planner's bind, likewise.
fn bind<S: Store>(planner: &mut Planner<S>, g: usize, p: u16) -> Result<u16, Refusal>
    ensures { Makes planner.old (narrow (bind g p)) (λ a. numbers (a ∷ [])) result planner.new }
{
    planner.bind(g, p)
}

/// Makes the call that the payload says. What it tells is written at the front of the list; the answer is how many numbers that is.
pub fn make<S: Store>(
    planner: &mut Planner<S>,
    kind: CallKind,
    payload: &[u8],
    list: &mut [u16],
) -> Result<usize, Refusal>
    requires length { allows kind (length payload.now) ≡ true }
    requires room { length list.old ≡ most_width }
    ensures long { length list.new ≡ most_width }
    ensures fits { Fits list.old result }
    ensures made { Makes planner.old (call_of kind payload.now) (λ n. numbers (take n list.new)) result planner.new }
{
    let first = byte(payload, 0);
    let second = byte(payload, 1);
    match kind {
        CallKind::Strike => put(strike(planner, usize::from(first), u16::from(second)), list),
        CallKind::Bind => put(bind(planner, usize::from(first), u16::from(second)), list),
        CallKind::Keep => {
            let mut kept = [0; WIDTH];
            let many = positions(payload, &mut kept);
            put(planner.keep(usize::from(first), &kept[..many]), list)
        }
        CallKind::Save => put(planner.save(), list),
        CallKind::Restore => put(planner.restore(), list),
        CallKind::Note => {
            planner.note(usize::from(first))?;
            Ok(0)
        }
        CallKind::Changes => planner.changes(usize::from(first), usize::from(second), list),
        CallKind::Show => planner.show(usize::from(first), list),
    }
}
