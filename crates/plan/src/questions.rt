// What a plan says.
ghost use Rattle.std.specs.Prelude.{◌≡◌, map};
ghost use Rattle.model.specs.Rules.{rule_of};
ghost use Rattle.plan.specs.Views.{load_of};

use crate::Plan;
use model::rule::Rule;

impl Plan {
    /// How many gates the plan has.
    pub fn gates(&self) -> usize
        ensures { result ≡ (load_of self.now).plan.gates }
    {
        self.gates
    }

    /// How many positions a gate has.
    pub fn width(&self) -> usize
        ensures { result ≡ (load_of self.now).plan.width }
    {
        self.width
    }

    /// Whether a gate starts with a position. It does not where there is no such gate or position.
    pub fn starts_with(&self, gate: usize, position: usize) -> bool
        ensures { result ≡ (load_of self.now).start gate position }
    {
        gate < self.gates && position < self.width && self.starts[gate][position]
    }

    /// The rules, in text order.
    pub fn rules(&self) -> &[Rule]
        ensures { map rule_of result.now ≡ (load_of self.now).plan.rules }
    {
        &self.rules[..self.count]
    }
}
