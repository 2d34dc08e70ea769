//! The walk down an expression: the terms of its operands, and then its own.

ghost use Rattle.std.specs.Prelude.{◌≡◌, ℕ, ◌≤◌, true, false, IfOk, drop, length};
ghost use Rattle.wb_values.specs.Value.{word};
ghost use Rattle.verilog_trees.specs.Syntax as pure;
ghost use Rattle.v_syntax.specs.Tree.{tree_of, select_of, selects_of, expressions_of, all_prefixed, combined, tested};
ghost use Rattle.v_syntax.specs.Chain.{linked, test_linked, chosen};
ghost use Rattle.v_value.specs.Scope.{object_of, scope_at};
ghost use Rattle.v_value.specs.Narrow.{IsWidth};
ghost use Rattle.v_value.specs.Links.{has_reduction};
ghost use Rattle.v_value.specs.Evaluation.{width_at, sign_at, parts_width, IsLinkWithin, AreLinksWithin, AreChoicesWithin};
ghost use Rattle.v_operators.specs.Meaning.{Grows, IsOfSort};
ghost use Rattle.v_lower.specs.Lowered.{HasImages, IsLowered, IsLoweredAlone, AreLowered};
ghost use Rattle.v_lower.specs.Table.{images_at};
ghost use Rattle.v_lower.specs.Reading.{IsRead, IsWordRead, TakesBits};
ghost use Rattle.v_lower.specs.Walking.{IsSound, IsNameSound, AreLinksSound, AreTestsSound, AreChoicesSound, ArePartsSound, has_term, IsBit};
ghost use Rattle.v_lower.specs.Contexts.{IsAddressed, IsTaken, IsTestContext, AreContexts};

use crate::NoMemory;
use crate::deciding::lower_conditional;
use crate::names::{Names, lower_whole, lower_word};
use crate::operators::{lower_binary, lower_shift, lower_signed, lower_unsigned};
use crate::parts::{lower_concatenation, lower_number, lower_part, lower_replication};
use crate::steps::{
    Contexts, bit_context, contexts_of, is_shift, lower_bit, lower_kept, lower_read, lower_reduced,
    lower_tested, reduces,
};
use crate::taking::{
    bounded_bits, count_of, downward, one_bit_of, own_context, taken_bits, upward,
};
use v_bits::Operand;
use v_syntax::tree::{BinaryLink, Choice, Expression, PrefixOperator, Select, Selects, TestLink};
use v_value::scope::Object;
use wb_terms::{TermId, Terms};

/// The term of an expression in a context of `width` bits and this sign.
#[cycle(walk)]
pub(crate) fn lower_in(
    expression: &Expression<'_>,
    names: Names<'_, '_, '_, '_>,
    terms: &mut Terms,
    width: u32,
    signed: bool,
) -> Result<TermId, NoMemory>
    requires known { HasImages (scope_at names.scope.now) (images_at names.table.now) terms.old }
    requires sound { IsSound (scope_at names.scope.now) (tree_of expression.now) }
    requires within { width_at (scope_at names.scope.now) (tree_of expression.now) ≤ width }
    requires at_most_128 { width ≤ 128 }
    ensures grows { Grows terms.old terms.new }
    ensures lowered { IfOk result (λ r. IsLowered (scope_at names.entry.scope.now) (images_at names.entry.table.now) terms.new (tree_of expression.now) width signed r.0) }
{
    match expression {
        Expression::Number(number) => {
            let id = lower_number(terms, *number, width, signed)?;
            Ok(id)
        }
        Expression::Name(name, selects) => {
            let read = lower_name(selects, names, terms, name)?;
            let id = lower_read(terms, read, width, signed)?;
            Ok(id)
        }
        Expression::Concatenation(parts) => {
            let all = lower_parts(parts, names, terms)?;
            let id = lower_concatenation(terms, all.id, all.width, width, signed)?;
            Ok(id)
        }
        Expression::Replication(count, parts) => {
            let all = lower_parts(parts, names, terms)?;
            let copies = count_of(count, names);
            let id = lower_replication(terms, copies, all.id, all.width, width, signed)?;
            Ok(id)
        }
        Expression::AsSigned(operand) => {
            let own = lower_alone(operand, names, terms)?;
            let id = lower_signed(terms, own.id, own.width, width, signed)?;
            Ok(id)
        }
        Expression::AsUnsigned(operand) => {
            let own = lower_alone(operand, names, terms)?;
            let id = lower_unsigned(terms, own.id, own.width, width, signed)?;
            Ok(id)
        }
        Expression::Prefix(operators, operand) => {
            let id = lower_prefixed(operand, names, terms, operators, width, signed)?;
            Ok(id)
        }
        Expression::Binary(first, links) => {
            let left = lower_in(first, names, terms, width, signed)?;
            let id = lower_links(links, names, terms, left, width, signed)?;
            Ok(id)
        }
        Expression::Test(first, links) => {
            if links.is_empty() {
                let id = lower_in(first, names, terms, width, signed)?;
                return Ok(id);
            }
            let link = &links[0];
            let own = own_context(first, names);
            let other = own_context(&link.operand, names);
            let contexts = contexts_of(link.operator, own, other);
            let left = lower_in(
                first,
                names,
                terms,
                contexts.left.width,
                contexts.left.signed,
            )?;
            let said = lower_test(link, names, terms, left, contexts)?;
            let all = lower_tests(links, names, terms, said)?;
            let id = lower_bit(terms, all, width)?;
            Ok(id)
        }
        Expression::Conditional(choices, last) => {
            let other = lower_in(last, names, terms, width, signed)?;
            let id = lower_choices(choices, names, terms, other, width, signed)?;
            Ok(id)
        }
    }
}

/// The term of an expression by itself.
#[cycle(walk)]
fn lower_alone(
    expression: &Expression<'_>,
    names: Names<'_, '_, '_, '_>,
    terms: &mut Terms,
) -> Result<Operand, NoMemory>
    requires known { HasImages (scope_at names.scope.now) (images_at names.table.now) terms.old }
    requires sound { IsSound (scope_at names.scope.now) (tree_of expression.now) }
    ensures grows { Grows terms.old terms.new }
    ensures lowered { IfOk result (λ r. IsLoweredAlone (scope_at names.entry.scope.now) (images_at names.entry.table.now) terms.new (tree_of expression.now) r.width r.id.0) }
    ensures sign { IfOk result (λ r. r.signed ≡ sign_at (scope_at names.entry.scope.now) (tree_of expression.now)) }
{
    let own = own_context(expression, names);
    let id = lower_in(expression, names, terms, own.width, own.signed)?;
    Ok(Operand {
        id,
        width: own.width,
        signed: own.signed,
    })
}

/// What a name with selects reads.
#[cycle(walk)]
fn lower_name(
    selects: &Selects<'_>,
    names: Names<'_, '_, '_, '_>,
    terms: &mut Terms,
    name: &str,
) -> Result<Operand, NoMemory>
    requires known { HasImages (scope_at names.scope.now) (images_at names.table.now) terms.old }
    requires sound { IsNameSound (scope_at names.scope.now) name.now (selects_of selects.now) }
    ensures grows { Grows terms.old terms.new }
    ensures read { IfOk result (λ r. IsRead (scope_at names.entry.scope.now) (images_at names.entry.table.now) terms.new name.now (selects_of selects.now) r.width r.id.0) }
{
    match selects {
        Selects::Whole => {
            let read = lower_whole(names, terms, name)?;
            Ok(read)
        }
        Selects::One(select) => {
            let read = lower_selected(select, names, terms, name)?;
            Ok(read)
        }
        Selects::Two(address, select) => {
            let word = lower_addressed(address, names, terms, name)?;
            let read = lower_bits(select, names, terms, names.scope.object(name), word)?;
            Ok(read)
        }
    }
}

/// What a name with one select reads: a word of a memory, or some bits.
#[cycle(walk)]
fn lower_selected(
    select: &Select<'_>,
    names: Names<'_, '_, '_, '_>,
    terms: &mut Terms,
    name: &str,
) -> Result<Operand, NoMemory>
    requires known { HasImages (scope_at names.scope.now) (images_at names.table.now) terms.old }
    requires sound { IsNameSound (scope_at names.scope.now) name.now (pure.one (select_of select.now)) }
    ensures grows { Grows terms.old terms.new }
    ensures read { IfOk result (λ r. IsRead (scope_at names.entry.scope.now) (images_at names.entry.table.now) terms.new name.now (pure.one (select_of select.now)) r.width r.id.0) }
{
    let object = names.scope.object(name);
    if object.addresses.is_some() {
        let word = lower_addressed(select, names, terms, name)?;
        return Ok(word);
    }
    let whole = lower_whole(names, terms, name)?;
    let bits = lower_bits(select, names, terms, object, whole)?;
    Ok(bits)
}

/// The word of a memory that an index reads.
#[cycle(walk)]
fn lower_addressed(
    select: &Select<'_>,
    names: Names<'_, '_, '_, '_>,
    terms: &mut Terms,
    name: &str,
) -> Result<Operand, NoMemory>
    requires known { HasImages (scope_at names.scope.now) (images_at names.table.now) terms.old }
    requires memory { IsAddressed (scope_at names.scope.now) name.now (select_of select.now) }
    ensures grows { Grows terms.old terms.new }
    ensures word { IfOk result (λ r. IsWordRead (scope_at names.entry.scope.now) (images_at names.entry.table.now) terms.new name.now (select_of select.now) r.width r.id.0) }
{
    match select {
        Select::Index(index) => {
            let address = lower_alone(index, names, terms)?;
            let word = lower_word(names, terms, name, address)?;
            Ok(word)
        }
        _ => unreachable!(),
    }
}

/// The bits that a select takes of an operand.
#[cycle(walk)]
fn lower_bits(
    select: &Select<'_>,
    names: Names<'_, '_, '_, '_>,
    terms: &mut Terms,
    object: Object,
    operand: Operand,
) -> Result<Operand, NoMemory>
    requires known { HasImages (scope_at names.scope.now) (images_at names.table.now) terms.old }
    requires sound { IsTaken (scope_at names.scope.now) (select_of select.now) }
    requires operand { IsOfSort terms.old operand.id.0 (word operand.width) }
    ensures grows { Grows terms.old terms.new }
    ensures bits { IfOk result (λ r. TakesBits (scope_at names.entry.scope.now) (images_at names.entry.table.now) terms.old terms.new (object_of object) (select_of select.now) operand.id.0 operand.width r.width r.id.0) }
{
    match select {
        Select::Index(index) => {
            let base = lower_alone(index, names, terms)?;
            let bits = taken_bits(terms, one_bit_of(object), operand, base)?;
            Ok(bits)
        }
        Select::Part(_, _) => {
            let bits = bounded_bits(select, names, terms, object, operand)?;
            Ok(bits)
        }
        Select::PartUp(base, count) => {
            let base = lower_alone(base, names, terms)?;
            let wanted = upward(object, count_of(count, names));
            let bits = taken_bits(terms, wanted, operand, base)?;
            Ok(bits)
        }
        Select::PartDown(base, count) => {
            let base = lower_alone(base, names, terms)?;
            let wanted = downward(object, count_of(count, names));
            let bits = taken_bits(terms, wanted, operand, base)?;
            Ok(bits)
        }
    }
}

/// Operators before an operand, in a context of `width` bits and this sign.
#[cycle(walk)]
fn lower_prefixed(
    operand: &Expression<'_>,
    names: Names<'_, '_, '_, '_>,
    terms: &mut Terms,
    operators: &[PrefixOperator],
    width: u32,
    signed: bool,
) -> Result<TermId, NoMemory>
    requires known { HasImages (scope_at names.scope.now) (images_at names.table.now) terms.old }
    requires sound { IsSound (scope_at names.scope.now) (tree_of operand.now) }
    requires within { has_reduction operators.now ≡ false → width_at (scope_at names.scope.now) (tree_of operand.now) ≤ width }
    requires some_bits { 1 ≤ width }
    requires at_most_128 { width ≤ 128 }
    ensures grows { Grows terms.old terms.new }
    ensures lowered { IfOk result (λ r. IsLowered (scope_at names.entry.scope.now) (images_at names.entry.table.now) terms.new (all_prefixed operators.now (tree_of operand.now)) width signed r.0) }
{
    if reduces(operators) {
        let own = lower_alone(operand, names, terms)?;
        let id = lower_reduced(terms, operators, own, width)?;
        return Ok(id);
    }
    let inner = lower_in(operand, names, terms, width, signed)?;
    let id = lower_kept(terms, operators, inner, width)?;
    Ok(id)
}

/// A chain of operators after an operand that has its term, in a context of `width` bits and this sign.
#[cycle(walk)]
fn lower_links(
    links: &[BinaryLink<'_>],
    names: Names<'_, '_, '_, '_>,
    terms: &mut Terms,
    first: TermId,
    width: u32,
    signed: bool,
) -> Result<TermId, NoMemory>
    requires known { HasImages (scope_at names.scope.now) (images_at names.table.now) terms.old }
    requires sound { AreLinksSound (scope_at names.scope.now) links.now }
    requires within { AreLinksWithin (scope_at names.scope.now) width links.now }
    requires at_most_128 { width ≤ 128 }
    requires first { IsOfSort terms.old first.0 (word width) }
    ensures grows { Grows terms.old terms.new }
    ensures lowered { IfOk result (λ r. (x : pure.Expression) → IsLowered (scope_at names.entry.scope.now) (images_at names.entry.table.now) terms.old x width signed first.0
        → IsLowered (scope_at names.entry.scope.now) (images_at names.entry.table.now) terms.new (linked links.now x) width signed r.0) }
{
    let mut left = first;
    for link in links {
        left = lower_link(link, names, terms, left, width, signed)?;
    }
    Ok(left)
}

/// One link of such a chain.
#[cycle(walk)]
fn lower_link(
    link: &BinaryLink<'_>,
    names: Names<'_, '_, '_, '_>,
    terms: &mut Terms,
    left: TermId,
    width: u32,
    signed: bool,
) -> Result<TermId, NoMemory>
    requires known { HasImages (scope_at names.scope.now) (images_at names.table.now) terms.old }
    requires operator { has_term link.now.operator ≡ true }
    requires sound { IsSound (scope_at names.scope.now) (tree_of link.now.operand) }
    requires within { IsLinkWithin (scope_at names.scope.now) width link.now }
    requires at_most_128 { width ≤ 128 }
    requires left { IsOfSort terms.old left.0 (word width) }
    ensures grows { Grows terms.old terms.new }
    ensures of_sort { IfOk result (λ r. IsOfSort terms.new r.0 (word width)) }
    ensures lowered { IfOk result (λ r. (x : pure.Expression) → IsLowered (scope_at names.entry.scope.now) (images_at names.entry.table.now) terms.old x width signed left.0
        → IsLowered (scope_at names.entry.scope.now) (images_at names.entry.table.now) terms.new (combined link.now.operator x (tree_of link.now.operand)) width signed r.0) }
{
    if is_shift(link.operator) {
        let count = lower_alone(&link.operand, names, terms)?;
        let id = lower_shift(
            terms,
            link.operator,
            left,
            width,
            signed,
            count.id,
            count.width,
        )?;
        return Ok(id);
    }
    let right = lower_in(&link.operand, names, terms, width, signed)?;
    let id = lower_binary(terms, link.operator, left, right, width)?;
    Ok(id)
}

/// One bit: what a test says of a left operand that has its term in its context, and of a right one.
#[cycle(walk)]
fn lower_test(
    link: &TestLink<'_>,
    names: Names<'_, '_, '_, '_>,
    terms: &mut Terms,
    left: TermId,
    contexts: Contexts,
) -> Result<TermId, NoMemory>
    requires known { HasImages (scope_at names.scope.now) (images_at names.table.now) terms.old }
    requires sound { IsSound (scope_at names.scope.now) (tree_of link.now.operand) }
    requires contexts { IsTestContext (scope_at names.scope.now) link.now contexts }
    requires left { IsOfSort terms.old left.0 (word contexts.left.width) }
    ensures grows { Grows terms.old terms.new }
    ensures of_sort { IfOk result (λ r. IsOfSort terms.new r.0 (word 1)) }
    ensures bit { IfOk result (λ r. (x : pure.Expression) → AreContexts (scope_at names.entry.scope.now) link.now.operator x (tree_of link.now.operand) contexts
        → IsLowered (scope_at names.entry.scope.now) (images_at names.entry.table.now) terms.old x contexts.left.width contexts.left.signed left.0
        → IsBit (scope_at names.entry.scope.now) (images_at names.entry.table.now) terms.new (tested link.now.operator x (tree_of link.now.operand)) r.0) }
{
    let right = lower_in(
        &link.operand,
        names,
        terms,
        contexts.right.width,
        contexts.right.signed,
    )?;
    let id = lower_tested(terms, link.operator, left, right, contexts)?;
    Ok(id)
}

/// One bit: a chain of tests after its first, which has its term.
#[cycle(walk)]
fn lower_tests(
    links: &[TestLink<'_>],
    names: Names<'_, '_, '_, '_>,
    terms: &mut Terms,
    first: TermId,
) -> Result<TermId, NoMemory>
    requires known { HasImages (scope_at names.scope.now) (images_at names.table.now) terms.old }
    requires sound { AreTestsSound (scope_at names.scope.now) links.now }
    requires first { IsOfSort terms.old first.0 (word 1) }
    requires some { 1 ≤ length links.now }
    ensures grows { Grows terms.old terms.new }
    ensures bit { IfOk result (λ r. (x : pure.Expression) → IsBit (scope_at names.entry.scope.now) (images_at names.entry.table.now) terms.old x first.0
        → IsBit (scope_at names.entry.scope.now) (images_at names.entry.table.now) terms.new (test_linked (drop 1 links.now) x) r.0) }
{
    let mut said = first;
    for i in 1..links.len() {
        said = lower_next(&links[i], names, terms, said)?;
    }
    Ok(said)
}

/// One bit: a test of one bit and of a right operand.
#[cycle(walk)]
fn lower_next(
    link: &TestLink<'_>,
    names: Names<'_, '_, '_, '_>,
    terms: &mut Terms,
    said: TermId,
) -> Result<TermId, NoMemory>
    requires known { HasImages (scope_at names.scope.now) (images_at names.table.now) terms.old }
    requires sound { IsSound (scope_at names.scope.now) (tree_of link.now.operand) }
    requires said { IsOfSort terms.old said.0 (word 1) }
    ensures grows { Grows terms.old terms.new }
    ensures of_sort { IfOk result (λ r. IsOfSort terms.new r.0 (word 1)) }
    ensures bit { IfOk result (λ r. (x : pure.Expression) → IsBit (scope_at names.entry.scope.now) (images_at names.entry.table.now) terms.old x said.0
        → IsBit (scope_at names.entry.scope.now) (images_at names.entry.table.now) terms.new (tested link.now.operator x (tree_of link.now.operand)) r.0) }
{
    let contexts = contexts_of(
        link.operator,
        bit_context(),
        own_context(&link.operand, names),
    );
    let left = lower_bit(terms, said, contexts.left.width)?;
    let id = lower_test(link, names, terms, left, contexts)?;
    Ok(id)
}

/// Conditions with their values before a last value that has its term, in a context of `width` bits and this sign.
#[cycle(walk)]
fn lower_choices(
    choices: &[Choice<'_>],
    names: Names<'_, '_, '_, '_>,
    terms: &mut Terms,
    last: TermId,
    width: u32,
    signed: bool,
) -> Result<TermId, NoMemory>
    requires known { HasImages (scope_at names.scope.now) (images_at names.table.now) terms.old }
    requires sound { AreChoicesSound (scope_at names.scope.now) choices.now }
    requires within { AreChoicesWithin (scope_at names.scope.now) width choices.now }
    requires at_most_128 { width ≤ 128 }
    requires last { IsOfSort terms.old last.0 (word width) }
    ensures grows { Grows terms.old terms.new }
    ensures lowered { IfOk result (λ r. (x : pure.Expression) → IsLowered (scope_at names.entry.scope.now) (images_at names.entry.table.now) terms.old x width signed last.0
        → IsLowered (scope_at names.entry.scope.now) (images_at names.entry.table.now) terms.new (chosen choices.now x) width signed r.0) }
{
    let mut other = last;
    for i in (0..choices.len()).rev() {
        other = lower_choice(&choices[i], names, terms, other, width, signed)?;
    }
    Ok(other)
}

/// One condition with its value before another.
#[cycle(walk)]
fn lower_choice(
    choice: &Choice<'_>,
    names: Names<'_, '_, '_, '_>,
    terms: &mut Terms,
    other: TermId,
    width: u32,
    signed: bool,
) -> Result<TermId, NoMemory>
    requires known { HasImages (scope_at names.scope.now) (images_at names.table.now) terms.old }
    requires condition { IsSound (scope_at names.scope.now) (tree_of choice.now.condition) }
    requires value { IsSound (scope_at names.scope.now) (tree_of choice.now.value) }
    requires within { width_at (scope_at names.scope.now) (tree_of choice.now.value) ≤ width }
    requires at_most_128 { width ≤ 128 }
    requires other { IsOfSort terms.old other.0 (word width) }
    ensures grows { Grows terms.old terms.new }
    ensures of_sort { IfOk result (λ r. IsOfSort terms.new r.0 (word width)) }
    ensures lowered { IfOk result (λ r. (x : pure.Expression) → IsLowered (scope_at names.entry.scope.now) (images_at names.entry.table.now) terms.old x width signed other.0
        → IsLowered (scope_at names.entry.scope.now) (images_at names.entry.table.now) terms.new (pure.conditional (tree_of choice.now.condition) (tree_of choice.now.value) x) width signed r.0) }
{
    let condition = lower_alone(&choice.condition, names, terms)?;
    let value = lower_in(&choice.value, names, terms, width, signed)?;
    let id = lower_conditional(terms, condition.id, condition.width, value, other, width)?;
    Ok(id)
}

/// Parts side by side, the first at the high end.
#[cycle(walk)]
fn lower_parts(
    parts: &[Expression<'_>],
    names: Names<'_, '_, '_, '_>,
    terms: &mut Terms,
) -> Result<Operand, NoMemory>
    requires known { HasImages (scope_at names.scope.now) (images_at names.table.now) terms.old }
    requires sound { ArePartsSound (scope_at names.scope.now) parts.now }
    requires width { IsWidth (parts_width (scope_at names.scope.now) parts.now) }
    ensures grows { Grows terms.old terms.new }
    ensures lowered { IfOk result (λ r. AreLowered (scope_at names.entry.scope.now) (images_at names.entry.table.now) terms.new (expressions_of parts.now) r.width r.id.0) }
{
    let first = lower_alone(&parts[0], names, terms)?;
    let mut all = first;
    for i in 1..parts.len() {
        let part = lower_alone(&parts[i], names, terms)?;
        let id = lower_part(terms, all.id, all.width, part.id, part.width)?;
        all = Operand {
            id,
            width: all.width + part.width,
            signed: false,
        };
    }
    Ok(all)
}
