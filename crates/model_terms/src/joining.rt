//! What single turns of a program add to it, as terms.

ghost use Rattle.std.specs.Prelude.{◌≡◌, ◌&&◌, true, false, cond, IfOk};
ghost use Rattle.term_copies.specs.Copies.{IsExtended, AreLeaves};
ghost use Rattle.model_terms.specs.Symbolic.{is_true, IsCondition, IsTest};
ghost use Rattle.model_terms.specs.Programs.{IsAdded, IsTurned, Led};

use crate::NoMemory;
use crate::choices::{put_both, put_choices, put_test, put_truth};
use std::alloc::Global;
use wb_terms::{TermId, Terms};

/// Where some steps lead: whether each of them was taken and ended, and a term for each name of the model's table.
#[derive(Drop)]
pub(crate) struct Reached {
    pub(crate) ended: TermId,
    pub(crate) point: Vec<TermId>,
}

/// What some instructions do: whether none of them decodes, and where the one leads that alone decodes.
#[derive(Drop)]
pub(crate) struct Taken {
    pub(crate) none: TermId,
    pub(crate) ended: TermId,
    pub(crate) point: Vec<TermId>,
}

/// What no instructions do.
pub(crate) fn put_none(
    alloc: Global,
    terms: &mut Terms,
    source: &Terms,
    point: &[TermId],
) -> Result<Taken, NoMemory>
    requires { AreLeaves terms.old source.now.names point.now }
    ensures extended { IsExtended terms.old terms.new }
    ensures none_test { IfOk result (λ t. IsTest terms.new t.none.0) }
    ensures ended_test { IfOk result (λ t. IsTest terms.new t.ended.0) }
    ensures none { IfOk result (λ t. (v : _) → is_true terms.new t.none.0 v ≡ true) }
    ensures ended { IfOk result (λ t. (v : _) → is_true terms.new t.ended.0 v ≡ false) }
    ensures point { IfOk result (λ t. t.point.items ≡ point.now) }
{
    let _source = source;
    let point = Vec::from_slice(alloc, point)?;
    let none = put_truth(terms, true)?;
    let ended = put_truth(terms, false)?;
    Ok(Taken { none, ended, point })
}

/// Puts the term of a test that counts only where a condition fails.
pub(crate) fn put_unless(
    terms: &mut Terms,
    condition: TermId,
    x: TermId,
) -> Result<TermId, NoMemory>
    requires condition { IsCondition terms.old condition.0 }
    requires test { IsTest terms.old x.0 }
    ensures extended { IsExtended terms.old terms.new }
    ensures test { IfOk result (λ r. IsTest terms.new r.0) }
    ensures value { IfOk result (λ r. (v : _) → is_true terms.new r.0 v ≡ cond (is_true terms.old condition.0 v) false (is_true terms.old x.0 v)) }
{
    let never = put_truth(terms, false)?;
    let id = put_test(terms, condition, never, x)?;
    Ok(id)
}

/// Puts the test that where a condition holds, nothing else is taken and x ends, and elsewhere y ends.
fn put_alone(
    terms: &mut Terms,
    condition: TermId,
    nothing: TermId,
    x: TermId,
    y: TermId,
) -> Result<TermId, NoMemory>
    requires condition { IsCondition terms.old condition.0 }
    requires nothing { IsTest terms.old nothing.0 }
    requires first { IsTest terms.old x.0 }
    requires second { IsTest terms.old y.0 }
    ensures extended { IsExtended terms.old terms.new }
    ensures test { IfOk result (λ r. IsTest terms.new r.0) }
    ensures value { IfOk result (λ r. (v : _) → is_true terms.new r.0 v ≡ cond (is_true terms.old condition.0 v) (is_true terms.old nothing.0 v && is_true terms.old x.0 v) (is_true terms.old y.0 v)) }
{
    let alone = put_both(terms, nothing, x)?;
    let id = put_test(terms, condition, alone, y)?;
    Ok(id)
}

/// Puts the test that earlier turns ended, and x too where a condition holds.
fn put_went(
    terms: &mut Terms,
    condition: TermId,
    x: TermId,
    earlier: TermId,
) -> Result<TermId, NoMemory>
    requires condition { IsCondition terms.old condition.0 }
    requires test { IsTest terms.old x.0 }
    requires earlier { IsTest terms.old earlier.0 }
    ensures extended { IsExtended terms.old terms.new }
    ensures test { IfOk result (λ r. IsTest terms.new r.0) }
    ensures value { IfOk result (λ r. (v : _) → is_true terms.new r.0 v ≡ (is_true terms.old earlier.0 v && cond (is_true terms.old condition.0 v) (is_true terms.old x.0 v) true)) }
{
    let always = put_truth(terms, true)?;
    let went = put_test(terms, condition, x, always)?;
    let id = put_both(terms, earlier, went)?;
    Ok(id)
}

/// Puts an instruction before others: where it decodes, it is taken if none of them does; else they are.
pub(crate) fn put_before(
    alloc: Global,
    terms: &mut Terms,
    source: &Terms,
    decode: TermId,
    one: &Reached,
    rest: &Taken,
) -> Result<Taken, NoMemory>
    requires decode { IsCondition terms.old decode.0 }
    requires one_test { IsTest terms.old one.now.ended.0 }
    requires one_point { AreLeaves terms.old source.now.names one.now.point.items }
    requires none_test { IsTest terms.old rest.now.none.0 }
    requires rest_test { IsTest terms.old rest.now.ended.0 }
    requires rest_point { AreLeaves terms.old source.now.names rest.now.point.items }
    ensures extended { IsExtended terms.old terms.new }
    ensures added { IfOk result (λ t. IsAdded terms.old terms.new source.now.names decode.0
        (record { none = 0; ended = one.now.ended.0; point = one.now.point.items })
        (record { none = rest.now.none.0; ended = rest.now.ended.0; point = rest.now.point.items })
        (record { none = t.none.0; ended = t.ended.0; point = t.point.items })) }
{
    let ended = put_alone(terms, decode, rest.none, one.ended, rest.ended)?;
    let none = put_unless(terms, decode, rest.none)?;
    let point = put_choices(alloc, terms, source, decode, &one.point, &rest.point)?;
    Ok(Taken { none, ended, point })
}

/// Puts a turn after others: where the valid condition holds, what is taken there; else nothing.
pub(crate) fn put_turn(
    alloc: Global,
    terms: &mut Terms,
    source: &Terms,
    valid: TermId,
    taken: &Taken,
    before: &Reached,
) -> Result<Reached, NoMemory>
    requires valid { IsCondition terms.old valid.0 }
    requires taken_test { IsTest terms.old taken.now.ended.0 }
    requires taken_point { AreLeaves terms.old source.now.names taken.now.point.items }
    requires before_test { IsTest terms.old before.now.ended.0 }
    requires before_point { AreLeaves terms.old source.now.names before.now.point.items }
    ensures extended { IsExtended terms.old terms.new }
    ensures turned { IfOk result (λ r. IsTurned terms.old terms.new source.now.names valid.0
        (record { none = 0; ended = taken.now.ended.0; point = taken.now.point.items })
        (record { none = 0; ended = before.now.ended.0; point = before.now.point.items })
        (record { none = 0; ended = r.ended.0; point = r.point.items })) }
{
    let ended = put_went(terms, valid, taken.ended, before.ended)?;
    let point = put_choices(alloc, terms, source, valid, &taken.point, &before.point)?;
    Ok(Reached { ended, point })
}

/// The end of a child's run: it ended if its valid condition fails.
pub(crate) fn put_end(terms: &mut Terms, valid: TermId, run: Reached) -> Result<Reached, NoMemory>
    requires valid { IsCondition terms.old valid.0 }
    requires test { IsTest terms.old run.ended.0 }
    ensures extended { IsExtended terms.old terms.new }
    ensures test { IfOk result (λ r. IsTest terms.new r.ended.0) }
    ensures ended { IfOk result (λ r. (v : _) → is_true terms.new r.ended.0 v ≡ cond (is_true terms.old valid.0 v) false (is_true terms.old run.ended.0 v)) }
    ensures point { IfOk result (λ r. r.point ≡ run.point) }
{
    let ended = put_unless(terms, valid, run.ended)?;
    let point = run.point;
    Ok(Reached { ended, point })
}
