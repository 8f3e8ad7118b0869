// What is told of a case: lines behind its name.
use crate::Case;
use model::rule::{Rule, Total};
use plan::Plan;
use plan::read::read_plan;
use std::fmt;

/// The lines of a text, each behind a name.
#[derive(Clone, Copy)]
pub struct NamedLines<'a> {
    pub name: &'a str,
    pub text: &'a str,
}

impl fmt::Display for NamedLines<'_> {
    fn fmt<W: fmt::Write>(&self, f: &mut fmt::Formatter<W>) -> fmt::Result {
        let name = self.name;
        for line in self.text.lines() {
            writeln!(f, "{name}: {line}")?;
        }
        Ok(())
    }
}

/// The plan that a case's input says, in lines behind the case's name: its length, what each gate starts with, and the rules.
/// Nothing is told where the case does not ask for it, or where the input is no plan.
#[derive(Clone, Copy)]
pub struct ToldPlan<'a>(pub &'a Case<'a>);

impl fmt::Display for ToldPlan<'_> {
    fn fmt<W: fmt::Write>(&self, f: &mut fmt::Formatter<W>) -> fmt::Result {
        if self.0.asks_for_plan() {
            write_plan(self.0, f)
        } else {
            Ok(())
        }
    }
}

/// Writes the lines of the plan. A function of its own, not inlined: it has room for a whole plan, which most cases do not ask for.
#[inline(never)]
fn write_plan<W: fmt::Write>(case: &Case<'_>, f: &mut fmt::Formatter<W>) -> fmt::Result {
    let Case { name, input } = case;
    let Ok(loaded) = read_plan(input.as_slice()) else {
        return Ok(());
    };
    writeln!(f, "{name}: {} bytes", loaded.read)?;
    let plan = &loaded.plan;
    for gate in 0..plan.gates() {
        writeln!(f, "{name}: gate {gate}:{}", Starts { plan, gate })?;
    }
    for (number, rule) in plan.rules().iter().enumerate() {
        writeln!(f, "{name}: rule {number}: {}", ToldRule(rule))?;
    }
    Ok(())
}

/// The positions that a gate starts with, as runs.
#[derive(Clone, Copy)]
struct Starts<'a> {
    plan: &'a Plan,
    gate: usize,
}

impl fmt::Display for Starts<'_> {
    fn fmt<W: fmt::Write>(&self, f: &mut fmt::Formatter<W>) -> fmt::Result {
        let starts = |p: usize| self.plan.starts_with(self.gate, p);
        for p in 0..self.plan.width() {
            if starts(p) && (p == 0 || !starts(p - 1)) {
                write!(f, " {p}-")?;
            }
            if starts(p) && !starts(p + 1) {
                write!(f, "{p}")?;
            }
        }
        Ok(())
    }
}

/// A rule's kind and its numbers.
#[derive(Clone, Copy)]
struct ToldRule<'a>(&'a Rule);

impl fmt::Display for ToldRule<'_> {
    fn fmt<W: fmt::Write>(&self, f: &mut fmt::Formatter<W>) -> fmt::Result {
        match *self.0 {
            Rule::Offset(r) => write!(f, "offset {} {} {}", r.pair.x, r.pair.y, r.c),
            Rule::Near(r) => write!(f, "near {} {} {}", r.pair.x, r.pair.y, r.d),
            Rule::NotAbove(r) => write!(f, "not above {} {} {}", r.pair.x, r.pair.y, r.c),
            Rule::Total(r) => write!(f, "{}", ToldTotal(&r)),
        }
    }
}

/// A Total's bounds, and each member's gate and weight.
#[derive(Clone, Copy)]
struct ToldTotal<'a>(&'a Total);

impl fmt::Display for ToldTotal<'_> {
    fn fmt<W: fmt::Write>(&self, f: &mut fmt::Formatter<W>) -> fmt::Result {
        let Total { low, high, members } = self.0;
        write!(f, "total {low} {high}")?;
        for m in members.list.iter().take(members.count) {
            write!(f, " {}*{}", m.gate, m.weight)?;
        }
        Ok(())
    }
}
