// The subject in definitions, the types and bounds that every crate shares, and the theorems of the planner.
// A theorem is named by the contract of a function without code: that contract is what has it proved.
#![tactic(auto)]

ghost use Rattle.model.specs.Statements.{OneLargest, SomeLargest, SettlingGrows, SettlingRests, SettlingKeepsSettings, OneAnswer, StringsStand, OneStanding, OneLedger, StringsEndAsTheLedger, StringsPermit, StringsMeet, StringsEnd};
ghost use Rattle.model.specs.Trials.{Trials};

pub mod bounds;
pub mod refusal;
pub mod rule;

/// Worked examples of the definitions.
pub fn trials_stand()
    ensures { Trials }
{}

/// Inside any domains there is one largest settled family, and only one.
pub fn one_largest_stands()
    ensures some { SomeLargest }
    ensures one { OneLargest }
{}

/// Larger domains settle to larger ones, what is settled stays, and no permitted setting is lost or won.
pub fn settling_stands()
    ensures grows { SettlingGrows }
    ensures rests { SettlingRests }
    ensures settings { SettlingKeepsSettings }
{}

/// Solve has one answer at most.
pub fn one_answer_stands()
    ensures { OneAnswer }
{}

/// Which calls of a string stand is decided.
pub fn standing_stands()
    ensures some { StringsStand }
    ensures one { OneStanding }
{}

/// Where strings of calls end.
pub fn strings_stand()
    ensures one { OneLedger }
    ensures ledger { StringsEndAsTheLedger }
    ensures permitted { StringsPermit }
    ensures ends { StringsEnd }
    ensures meet { StringsMeet }
{}
