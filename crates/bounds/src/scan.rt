// The span of a domain, as calls on a store tell it.
ghost use Rattle.std.specs.Prelude.{◌≡◌, ℕ, ◌<◌, ◌≤◌, true, false, IfSome, IfNone};
ghost use Rattle.model.specs.Bounds.{most_width};
ghost use Rattle.store.specs.Meaning.{domains};
ghost use Rattle.bounds.specs.Ends.{SpanOf, LastOpen, Covers};

use crate::ends::Span;
use store::Store;

/// The gate's span, as the store tells it.
pub fn span_of<S: Store>(store: &S, g: usize) -> Option<Span>
    ensures { g < (S.mean store.now).gates → SpanOf (S.mean store.now) g result }
{
    let lowest = store.lowest(g).ok()??;
    let highest = store.highest(g).ok()??;
    Some(Span::new(lowest, highest))
}

/// The gate's span, where all that is open lies in this one. An end that is open is found at the first test.
pub fn inward<S: Store>(store: &S, g: usize, span: Option<Span>) -> Option<Span>
    ensures { g < (S.mean store.now).gates → Covers (S.mean store.now) g span → SpanOf (S.mean store.now) g result }
{
    let span = span?;
    let lowest = store.next_open(g, u16::from(span.lowest))?;
    let highest = last_open(store, g, lowest, u16::from(span.highest))?;
    Some(Span::new(lowest, highest))
}

/// The gate's highest open position from `from` to `to`.
fn last_open<S: Store>(store: &S, g: usize, from: u16, to: u16) -> Option<u16>
    ensures { LastOpen (S.mean store.now) g from to result }
{
    (from..=to).rev().find(|&p| store.is_open(g, p))
}

/// The span that a bind to p leaves: of p alone, or of none.
pub fn after_bind(left: u16, p: u16) -> Option<Span>
    requires { p < most_width }
    ensures one { 0 < left → result ≡ Some (record { lowest = p; highest = p }) }
    ensures none { left ≡ 0 → result ≡ None }
{
    (left > 0).then_some(Span::new(p, p))
}
