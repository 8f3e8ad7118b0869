// A planner is made, and loads a plan.
ghost use Rattle.std.specs.Prelude.{◌≡◌, true, false, is_ok, Some, None, Ok};
ghost use Rattle.model.specs.Plans.{SoundLoad};
ghost use Rattle.plan.specs.Plans.{Reading, plan_text};
ghost use Rattle.model.specs.Planners.{Loaded as JustLoaded};
ghost use Rattle.planner.specs.States.{loaded, state};
ghost use Rattle.planner.specs.Loads.{load_answer, Within};

use crate::Planner;
use crate::begin::begin;
use book::Book;
use lists::rows::gone_lengths;
use model::bounds::GATES;
use plan::read::read_plan;
use store::Store;
use text::fault::Fault;

impl<S: Store> Planner<S> {
    /// A planner that holds no plan yet.
    pub fn new(store: S) -> Planner<S>
        ensures unloaded { loaded result ≡ None }
        ensures store { result.store ≡ store }
        ensures closed { result.book.depth ≡ 0 }
    {
        Planner {
            store,
            plan: None,
            book: Book::new([0; GATES]),
        }
    }

    /// Reads a plan text, resets the store to it, notes all readers and closes all saves; answers the bytes read.
    pub fn load(&mut self, text: &[u8]) -> Result<usize, Fault>
        ensures answer { result ≡ load_answer (S.mean self.old.store).cells (plan_text text.now) }
        ensures within { Within text.now result }
        ensures whole { is_ok result ≡ false → self.new ≡ self.old }
        ensures made { (x : Reading) → plan_text text.now ≡ Ok x → is_ok result ≡ true → (loaded self.new ≡ Some x.load) × SoundLoad x.load × JustLoaded x.load (state self.new) }
    {
        let found = read_plan(text)?;
        let plan = found.plan;
        begin(&mut self.store, &plan).map_err(|refusal| Fault { refusal, place: 0 })?;
        self.book = Book::new(gone_lengths(&self.store));
        self.plan = Some(plan);
        Ok(found.read)
    }
}
