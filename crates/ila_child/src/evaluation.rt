//! Values of terms: of a model's at a point, and of others by one pass over their store under an environment.

ghost use Rattle.std.specs.Prelude.{◌≡◌, ◌<◌, true, length, IfOk};
ghost use Rattle.wb_values.specs.Value.{truth, as_words};
ghost use Rattle.model_meaning.specs.Term.{sort_of};
ghost use Rattle.model_meaning.specs.Model.{holds};
ghost use Rattle.wb_terms.specs.Graph.{tree};
ghost use Rattle.wb_terms.specs.Environment.{AreOfSorts, Fits, HasSortOf, valuation, value_of, as_value};
ghost use Rattle.wb_terms.specs.Held.{Holds};
ghost use Rattle.term_evaluation.specs.Links.{valuation_at};
ghost use Rattle.term_evaluation.specs.Points.{IsPointOf};
ghost use Rattle.ila_model.specs.Sorted.{is_term_of};
ghost use Rattle.ila_child.specs.Values.{IsMemoryOf};

use std::alloc::Global;
use term_evaluation::Point;
use wb_terms::{Env, Evaluated, NoMemory, Sort, TermId, Terms, Value};

/// Whether a condition holds at a point.
pub(crate) fn holds_at(terms: &Terms, point: &mut Point, id: TermId) -> Result<bool, NoMemory>
    requires condition { is_term_of terms.now truth id.0 ≡ true }
    requires point { IsPointOf terms.now point.old }
    requires fits { AreOfSorts terms.now.names point.old.values }
    ensures holds { IfOk result (λ b. b ≡ holds (tree terms.now id.0) (valuation_at terms.now point.old.values)) }
    ensures values { point.new.values ≡ point.old.values }
    ensures aside { point.new.aside ≡ point.old.aside }
    ensures point { IsPointOf terms.now point.new }
{
    let number = point.number(terms, id)?;
    Ok(number == 1)
}

/// Whether a condition holds.
pub fn holds(terms: &Terms, env: &Env, words: &Evaluated, id: TermId) -> bool
    requires condition { is_term_of terms.now truth id.0 ≡ true }
    requires words { Holds terms.now env.now words.now }
    ensures { result ≡ holds (tree terms.now id.0) (valuation terms.now env.now) }
{
    words.number(terms, env, id) == 1
}

/// The value of a term.
pub fn term_value(
    alloc: Global,
    terms: &Terms,
    env: &Env,
    words: &Evaluated,
    id: TermId,
) -> Result<Value, NoMemory>
    requires id { id.0 < length terms.now.nodes }
    requires words { Holds terms.now env.now words.now }
    requires fits { Fits terms.now env.now }
    ensures value { IfOk result (λ value. as_value value ≡ value_of terms.now env.now id.0) }
    ensures sorted { IfOk result (λ value. HasSortOf (as_value value) (sort_of (tree terms.now id.0))) }
{
    match terms.sort(id) {
        Sort::Truth => Ok(Value::Truth(words.number(terms, env, id) == 1)),
        Sort::Word(_) => Ok(Value::Number(words.number(terms, env, id))),
        Sort::Memory(address_width, _) => {
            let values = memory_words(alloc, terms, env, words, id, 1 << address_width)?;
            Ok(Value::Words(values))
        }
    }
}

/// The words of a memory's value, by ascending address.
fn memory_words(
    alloc: Global,
    terms: &Terms,
    env: &Env,
    words: &Evaluated,
    id: TermId,
    count: u64,
) -> Result<Vec<u128>, NoMemory>
    requires id { id.0 < length terms.now.nodes }
    requires words { Holds terms.now env.now words.now }
    requires fits { Fits terms.now env.now }
    requires memory { IsMemoryOf count (sort_of (tree terms.now id.0)) }
    ensures words { IfOk result (λ values. values.items ≡ as_words (value_of terms.now env.now id.0)) }
    ensures sorted { IfOk result (λ values. HasSortOf (value_of terms.now env.now id.0) (sort_of (tree terms.now id.0))) }
{
    let mut values = Vec::new(alloc);
    for address in 0..count {
        values.push(words.word_at(terms, env, id, address))?;
    }
    Ok(values)
}
