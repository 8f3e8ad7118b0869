// Worked examples, as theorems about the definitions.
ghost use Rattle.plan.specs.Trials.{TextTrials};

/// The empty text, the worked example, and a first fault.
pub fn text_trials_stand()
    ensures { TextTrials }
{}
