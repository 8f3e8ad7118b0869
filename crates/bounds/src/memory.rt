// The memory of the ends, as it is written, begun anew, saved and taken back.
ghost use Rattle.std.specs.Prelude.{◌≡◌, ◌≢◌, ℕ, ◌<◌, ◌≤◌, ◌-◌, replicate, MatchOption, slice_index_or};
ghost use Rattle.model.specs.Bounds.{most_gates, most_width, most_marks};
ghost use Rattle.bounds.specs.Ends.{SpanOf, Covers, SameBut, Right};

use crate::ends::{Ends, Memory, Span};
use crate::scan::{inward, span_of};
use model::bounds::GATES;
use store::Store;

impl Ends {
    /// Each gate's span, as the store tells it. Cold: a restore seldom asks, and is the shorter without it.
    #[cold]
    pub fn of<S: Store>(store: &S) -> Ends
        ensures { Right (S.mean store.now) result }
    {
        // kept: with from_fn or iter_mut the proof did not close
        let mut spans = [None; GATES];
        for g in 0..store.gates() {
            spans[g] = span_of(store, g);
        }
        Ends { spans }
    }
}

impl Memory {
    /// All w positions of each gate are open.
    pub fn reset(&mut self, w: u16)
        requires { w ≤ most_width }
        ensures ends { self.new.ends.spans ≡ replicate most_gates (Some (record { lowest = 0; highest = w - 1 })) }
        ensures saved { self.new.saved ≡ self.old.saved }
    {
        let whole = Span::new(0, w.saturating_sub(1));
        self.ends.spans = [Some(whole); GATES];
    }

    /// Writes the span of one gate.
    pub fn write(&mut self, g: usize, span: Option<Span>)
        requires { g < most_gates }
        ensures written { slice_index_or self.new.ends.spans g None ≡ span }
        ensures others { SameBut g self.old.ends self.new.ends }
        ensures saved { self.new.saved ≡ self.old.saved }
    {
        self.ends.spans[g] = span;
    }

    /// Seeks the gate's span within what it was.
    pub fn narrow<S: Store>(&mut self, store: &S, g: usize)
        requires { g < most_gates }
        ensures found { g < (S.mean store.now).gates → Covers (S.mean store.now) g (slice_index_or self.old.ends.spans g None)
            → SpanOf (S.mean store.now) g (slice_index_or self.new.ends.spans g None) }
        ensures others { SameBut g self.old.ends self.new.ends }
        ensures saved { self.new.saved ≡ self.old.saved }
    {
        let span = inward(store, g, self.ends.spans[g]);
        self.write(g, span);
    }

    /// Keeps the ends for the mark at this place, over what a mark before it left there.
    pub fn save(&mut self, mark: usize)
        requires { mark < most_marks }
        ensures newest { slice_index_or self.new.saved mark None ≡ Some self.old.ends }
        ensures others { (i : ℕ) → i ≢ mark → slice_index_or self.new.saved i None ≡ slice_index_or self.old.saved i None }
        ensures ends { self.new.ends ≡ self.old.ends }
    {
        self.saved[mark] = Some(self.ends);
    }

    /// Takes back the ends of the mark at this place, with no scan. Only for a mark that is older than the keeper the store is asked anew.
    pub fn restore<S: Store>(&mut self, mark: usize, store: &S)
        requires { mark < most_marks }
        ensures ends { MatchOption (slice_index_or self.old.saved mark None) (Right (S.mean store.now) self.new.ends) (λ ends. self.new.ends ≡ ends) }
        ensures saved { self.new.saved ≡ self.old.saved }
    {
        // kept: with unwrap_or_else the ends are copied once more, a sixth of what a save and a restore cost in a pile
        match &self.saved[mark] {
            Some(ends) => self.ends = *ends,
            None => self.ends = Ends::of(store),
        }
    }
}
