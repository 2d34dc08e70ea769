//! Which expression of a map is bad, and how.

ghost use Rattle.std.specs.Prelude.{◌≡◌, is_some};
ghost use Rattle.std.specs.List.{list_any};
ghost use Rattle.verilog_meaning.specs.Settled.{Design};
ghost use Rattle.map_judged.specs.Asked.{asked_list, names_asked, AreNamed};
ghost use Rattle.map_judged.specs.Flaws.{IsFirstFlaw};
ghost use Rattle.map_judged.specs.Known.{AreKnown};
ghost use Rattle.map_judged.specs.Told.{flaw_if, flaw_of, first_flaw_from};

use crate::expression::MapExpression;
use crate::known::KnownNames;
use map_clocks::names_clock;
use map_sizes::judged;
use map_sizes::laws::scopes_that_agree_judge_alike;
use v_size::Names;

/// Why an expression of a map is bad.
#[derive(Clone, Copy, PartialEq, Eq, Debug)]
pub enum Flaw {
    /// It breaks a rule on expressions: it names what the design lacks, has an x or a z digit, wants a constant that is none, is too wide, or
    /// selects what cannot be selected.
    BreaksRule,
    /// It breaks none of these, and names a clock.
    NamesClock,
}

/// An expression that is bad, by its number in a list.
#[derive(Clone, Copy, PartialEq, Eq, Debug)]
pub struct FirstFlaw {
    pub index: usize,
    pub flaw: Flaw,
}

/// The flaw of an expression of which this is so.
fn flaw_if(is_refused: bool, names_clock: bool) -> Option<Flaw>
    ensures { result ≡ flaw_if is_refused names_clock }
{
    if is_refused {
        return Some(Flaw::BreaksRule);
    }
    if names_clock {
        return Some(Flaw::NamesClock);
    }
    None
}

/// The flaw of an expression, if it has one.
fn flaw_of(expression: &MapExpression<'_, '_>, known: &KnownNames<'_, '_>) -> Option<Flaw>
    ensures { result ≡ flaw_of known.now expression.now }
{
    let names = Names {
        scope: &known.scope,
    };
    let found = judged(expression.tree, names);
    let clock = names_clock(&known.instances, &known.nets, &expression.names);
    flaw_if(found.is_refused, clock)
}

/// The first that has one.
fn first_flawed(
    expressions: &[MapExpression<'_, '_>],
    known: &KnownNames<'_, '_>,
) -> Option<FirstFlaw>
    ensures { result ≡ first_flaw_from known.now 0 expressions.now }
{
    for (index, expression) in expressions.iter().enumerate() {
        if let Some(flaw) = flaw_of(expression, known) {
            return Some(FirstFlaw { index, flaw });
        }
    }
    None
}

/// The first of these expressions that breaks a rule on expressions or names a clock, where these are the meanings of their names.
pub fn first_flaw(
    expressions: &[MapExpression<'_, '_>],
    known: &KnownNames<'_, '_>,
) -> Option<FirstFlaw>
    ensures { (d : Design) → AreKnown d (names_asked (asked_list expressions.now)) known.now → AreNamed expressions.now
        → IsFirstFlaw d (asked_list expressions.now) result }
{
    scopes_that_agree_judge_alike();
    first_flawed(expressions, known)
}
