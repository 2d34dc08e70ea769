//! Values of names from an assignment.

ghost use Rattle.std.specs.Prelude.{◌≡◌, ◌+◌, ◌<◌, ◌≤◌, ◌^◌, false, true, length, map, replicate, IfOk, IsTrue};
ghost use Rattle.wb_values.specs.Value.{HasSort, truth_value};
ghost use Rattle.model_meaning.specs.Term.{is_sort};
ghost use Rattle.wb_terms.specs.Sort.{as_sort};
ghost use Rattle.wb_terms.specs.Graph.{tree};
ghost use Rattle.wb_terms.specs.Environment.{Fits, as_value, value_of, valuation};
ghost use Rattle.sat_base.specs.Formula.{variable_value, Satisfies};
ghost use Rattle.gate_words.specs.Binary.{number_of};
ghost use Rattle.sat_gates.specs.Names.{names_in, is_blastable};
ghost use Rattle.sat_gates.specs.Encodes.{Encodes, RestrictsTo};
ghost use Rattle.sat_gates.specs.Layout.{bit_count, variables_from, variables_of, IsNumbered};
ghost use Rattle.sat_gates.specs.Reading.{IsRead, FitsBelow, IsZeroElsewhere};

use crate::formulas::Blasted;
use sat_base::{Assignment, Lit, NoMemory};
use std::alloc::Global;
use wb_terms::{Env, NameId, Sort, TermId, Terms, Value};

/// The values of the declared names under an assignment that satisfies the formula of a term: under them the term is false.
/// A name that does not stand in the term is false, 0, or a memory of zeros.
pub fn read_back(
    alloc: Global,
    terms: &Terms,
    id: TermId,
    blasted: &Blasted,
    assignment: &Assignment,
) -> Result<Env, NoMemory>
    requires id { id.0 < length terms.now.nodes }
    requires blastable { is_blastable (tree terms.now id.0) ≡ true }
    requires encodes { Encodes blasted.now.cnf (variables_of terms.now.names blasted.now.map) (tree terms.now id.0) }
    requires numbered { IsNumbered terms.now.names (names_in (tree terms.now id.0)) blasted.now.map blasted.now.cnf.vars }
    requires whole { length assignment.now ≡ blasted.now.cnf.vars }
    requires satisfies { Satisfies assignment.now blasted.now.cnf }
    ensures fits { IfOk result (λ env. Fits terms.now env) }
    ensures falsifies { IfOk result (λ env. value_of terms.now env id.0 ≡ truth_value false) }
    ensures read { IfOk result (λ env. RestrictsTo (variables_of terms.now.names blasted.now.map) assignment.now (valuation terms.now env) (tree terms.now id.0)) }
    ensures absent { IfOk result (λ env. IsZeroElsewhere terms.now.names (names_in (tree terms.now id.0)) (valuation terms.now env)) }
{
    let _vars = blasted.cnf.vars();
    let count = terms.name_count() as usize;
    let mut values = Vec::with_capacity(alloc, count)?;
    for place in 0..count {
        let name = NameId(place);
        let first = blasted.map.first(name);
        let value = read_name(alloc, terms.name_sort(name), first, assignment)?;
        values.push(value)?;
    }
    Ok(Env { values })
}

/// The value of a name of a sort, by the first variable of its bits.
fn read_name(
    alloc: Global,
    sort: Sort,
    first: Option<u64>,
    assignment: &Assignment,
) -> Result<Value, NoMemory>
    requires in_range { IsTrue (is_sort (as_sort sort)) }
    requires fits { FitsBelow (2 ^ 64) first (as_sort sort) }
    ensures sort { IfOk result (λ v. HasSort (as_value v) (as_sort sort)) }
    ensures read { IfOk result (λ v. IsRead assignment.now first (as_sort sort) (as_value v)) }
{
    match (sort, first) {
        (Sort::Truth, Some(var)) => Ok(Value::Truth(assignment.value(positive(var)))),
        (Sort::Truth, None) => Ok(Value::Truth(false)),
        (Sort::Word(width), Some(var)) => Ok(Value::Number(read_number(assignment, var, width))),
        (Sort::Word(_), None) => Ok(Value::Number(0)),
        (Sort::Memory(address_width, _), _) => {
            let words = no_words(alloc, address_width)?;
            Ok(Value::Words(words))
        }
    }
}

/// The literal of a variable.
fn positive(var: u64) -> Lit
    ensures { result ≡ record { var = var; negative = false } }
{
    Lit {
        var,
        negative: false,
    }
}

/// The number that so many variables write from a first one on, bit 0 first.
fn read_number(assignment: &Assignment, first: u64, width: u32) -> u128
    requires width { width ≤ 128 }
    requires fits { first + width < 2 ^ 64 }
    ensures { result ≡ number_of (map (variable_value assignment.now) (variables_from first width)) }
{
    let mut number: u128 = 0;
    let mut place = width;
    while place > 0 {
        place -= 1;
        let bit = assignment.value(positive(first + u64::from(place)));
        number = number * 2 + u128::from(bit);
    }
    number
}

/// The words of a memory of zeros.
fn no_words(alloc: Global, address_width: u32) -> Result<Vec<u128>, NoMemory>
    requires { address_width ≤ 16 }
    ensures { IfOk result (λ words. words.items ≡ replicate (2 ^ address_width) 0) }
{
    Ok(vec![in alloc; 0; 1usize << address_width]?)
}
