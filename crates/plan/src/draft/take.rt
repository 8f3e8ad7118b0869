// One field more.
ghost use Rattle.std.specs.Prelude.{◌≡◌, ◌≤◌, List, [], ◌∷◌, Some};
ghost use Rattle.model.specs.Bounds.{most_gates, most_width};
ghost use Rattle.text.specs.declared.kind.PlanKind.TheVariants.{Head as headKind, Positions as positionsKind, Rule as ruleKind};
ghost use Rattle.text.specs.Fields.{part};
ghost use Rattle.text.specs.Payloads.{head_of};
ghost use Rattle.plan.specs.Plans.{Field as Part, repeated};
ghost use Rattle.plan.specs.Drafts.{judged, Holds, Takes};

use super::Draft;
use crate::Plan;
use model::bounds::{GATES, RULES, WIDTH};
use model::refusal::Refusal;
use model::rule::Rule;
use model::rule::pair::{Near, Pair};
use text::fault::Fault;
use text::field::Field;
use text::head::Head;
use text::kind::{PlanKind, RuleKind};
use text::positions::{Listing, read_positions};
use text::rules::read_rule;

/// What a field gave, or its fault by the first row of the table that applies.
pub(crate) fn judge<T: Drop>(
    field: &Field<PlanKind>,
    misplaced: bool,
    given: Option<T>,
    full: bool,
) -> Result<T, Fault>
    ensures { result ≡ judged field.now.place misplaced given full }
{
    if misplaced {
        return Err(field.fault(Refusal::Misplaced));
    }
    // kept: a rule of the project: a field that says nothing is left by `let .. else`, with number and place.
    let Some(item) = given else {
        return Err(field.fault(Refusal::OutOfRange));
    };
    if full {
        return Err(field.fault(Refusal::TooManyRules));
    }
    Ok(item)
}

impl Draft {
    /// A plan of its first field alone: every position open, and no rule.
    pub(crate) fn new(head: Head) -> Draft
        requires some_gates { 1 ≤ head.gates }
        requires few_gates { head.gates ≤ most_gates }
        requires some_positions { 1 ≤ head.width }
        requires few_positions { head.width ≤ most_width }
        ensures { (p : Part) → p.kind ≡ headKind → head_of p.bytes ≡ Some head → Holds result (p ∷ []) }
    {
        let filler = Rule::Near(Near {
            pair: Pair { x: 0, y: 1 },
            d: 0,
        });
        let plan = Plan {
            gates: head.gates,
            width: head.width,
            starts: [[true; WIDTH]; GATES],
            rules: [filler; RULES],
            count: 0,
        };
        Draft {
            plan,
            listed: [false; GATES],
        }
    }

    /// Whether the gate that a payload begins with was listed before.
    fn lists(&self, payload: &[u8]) -> bool
        ensures { (ps : List Part) → Holds self.now ps → result ≡ repeated ps payload.now }
    {
        payload.first().is_some_and(|gate| {
            let gate = usize::from(*gate);
            gate < self.plan.gates && self.listed[gate]
        })
    }

    /// Takes the positions that a gate starts with.
    fn take_positions(&mut self, field: &Field<PlanKind>) -> Result<(), Fault>
        requires { field.now.kind ≡ positionsKind }
        ensures { Takes self.old self.new (part field.now) result }
    {
        let again = self.lists(field.payload);
        let given = read_positions(field.payload, self.plan.gates, self.plan.width);
        let Listing { gate, row } = judge(field, again, given, false)?;
        self.plan.starts[gate] = row;
        self.listed[gate] = true;
        Ok(())
    }

    /// Takes one rule more.
    fn take_rule(&mut self, kind: RuleKind, field: &Field<PlanKind>) -> Result<(), Fault>
        requires { field.now.kind ≡ ruleKind kind }
        ensures { Takes self.old self.new (part field.now) result }
    {
        let count = self.plan.count;
        let given = read_rule(kind, field.payload, self.plan.gates);
        let rule = judge(field, false, given, count >= RULES)?;
        self.plan.rules[count] = rule;
        self.plan.count = count + 1;
        Ok(())
    }

    /// A second Head is misplaced, whatever it says.
    fn take_head(&self, field: &Field<PlanKind>) -> Result<(), Fault>
        requires { field.now.kind ≡ headKind }
        ensures { Takes self.now self.now (part field.now) result }
    {
        Err(field.fault(Refusal::Misplaced))
    }

    /// Takes one field more, or tells its fault. End adds nothing.
    pub(crate) fn take(&mut self, field: &Field<PlanKind>) -> Result<(), Fault>
        ensures { Takes self.old self.new (part field.now) result }
    {
        match field.kind {
            PlanKind::Head => self.take_head(field),
            PlanKind::Positions => self.take_positions(field),
            PlanKind::Rule(kind) => self.take_rule(kind, field),
            PlanKind::End => Ok(()),
        }
    }
}
