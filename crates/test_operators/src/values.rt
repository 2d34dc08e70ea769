//! The values of terms over a sample: a is a memory of four words of 8 bits, 1, 2, 3 and 250; d is 200, e 13 and f 3 in 8 bits; g is true
//! and h false; i is 3 in 2 bits, and j 200 in 128 bits.

ghost use Rattle.std.specs.Prelude.{◌≡◌, ◌<◌, ◌≤◌, [], ◌∷◌, IfOk, false, length};
ghost use Rattle.wb_values.specs.Value.{memory, truth, truth_value, words};
ghost use Rattle.wb_terms.specs.Graph.{Graph};
ghost use Rattle.wb_terms.specs.Environment.{Fits, values_of};

use crate::sheet::Sheet;
use crate::stores::{fill, named};
use std::alloc::{AllocError, Global};
use wb_terms::{Env, Node, Scratch, Sort, TermId, Terms, Value, eval, eval_at};

/// The terms of the sample after its names.
const SAMPLE: &str =
    "const 8 200; const 8 13; const 8 3; truth true; truth false; const 2 3; const 128 200";

/// How many terms the sample has.
const COUNT: u64 = 10;

/// The sample with the terms of a text, or what is told of it.
fn sample(alloc: Global, text: &str) -> Result<Terms, &'static str>
    ensures { IfOk result (λ t. t.names ≡ (120 ∷ [], memory 2 8) ∷ (35 ∷ 121 ∷ [], truth) ∷ (122 ∷ [], truth) ∷ []) }
{
    let Ok(mut terms) = named(alloc, Sort::Memory(2, 8), Sort::Truth, Sort::Truth) else {
        return Err("no memory");
    };
    if !fill(&mut terms, SAMPLE).is_empty() {
        return Err("no sample");
    }
    let told = fill(&mut terms, text);
    if told.is_empty() {
        Ok(terms)
    } else {
        Err(told)
    }
}

/// The values of the sample's names.
fn environment(alloc: Global) -> Result<Env, AllocError>
    ensures { IfOk result (λ env. values_of env ≡ words (1 ∷ 2 ∷ 3 ∷ 250 ∷ []) ∷ truth_value false ∷ truth_value false ∷ []) }
{
    let words = vec![in alloc; 1, 2, 3, 250]?;
    let mut values = Vec::new(alloc);
    values.push(Value::Words(words))?;
    values.push(Value::Truth(false))?;
    values.push(Value::Truth(false))?;
    Ok(Env { values })
}

/// Adds the number of a term under an environment.
fn add_number_of(
    alloc: Global,
    terms: &Terms,
    env: &Env,
    scratch: &mut Scratch,
    id: TermId,
    out: &mut Sheet,
)
    requires room { length terms.now.nodes ≤ scratch.old }
    requires fits { Fits terms.now env.now }
    ensures { scratch.new ≡ scratch.old }
{
    if id.0 as u64 >= terms.len() {
        return out.add("no term");
    }
    out.add_number(alloc, eval(terms, env, scratch, id));
}

/// Adds the word of a memory of four words at an address.
fn add_word_of(
    alloc: Global,
    terms: &Terms,
    env: &Env,
    scratch: &mut Scratch,
    id: TermId,
    address: u64,
    out: &mut Sheet,
)
    requires id { id.0 < length terms.now.nodes }
    requires room { length terms.now.nodes ≤ scratch.old }
    requires fits { Fits terms.now env.now }
    ensures { scratch.new ≡ scratch.old }
{
    out.add(" ");
    match terms.sort(id) {
        Sort::Memory(2, _) if address < 4 => {
            out.add_number(alloc, eval_at(terms, env, scratch, id, address))
        }
        _ => out.add("no word"),
    }
}

/// Adds the number of the last of a text's terms over the sample: `TERM; TERM ..`.
pub fn add_value(alloc: Global, text: &str, out: &mut Sheet) {
    let terms = match sample(alloc, text) {
        Ok(terms) => terms,
        Err(told) => return out.add(told),
    };
    let (Ok(env), Ok(mut scratch)) = (environment(alloc), Scratch::new(alloc, &terms)) else {
        return out.add("no memory");
    };
    let last = TermId(terms.len().saturating_sub(1) as usize);
    add_number_of(alloc, &terms, &env, &mut scratch, last, out);
}

/// Adds what is read through a store and a choice of memories: a memory that is stored into, a choice, and a word that is read of it. The
/// read word, words 3 and 1 of the choice, and how many terms there are.
fn add_read(alloc: Global, terms: &Terms, env: &Env, out: &mut Sheet)
    requires fits { Fits terms.now env.now }
{
    let count = terms.len();
    let Ok(mut scratch) = Scratch::new(alloc, terms) else {
        return out.add("no memory");
    };
    if count < 3 {
        return out.add("no terms");
    }
    let chosen = TermId((count - 2) as usize);
    let (Sort::Memory(2, 8), Node::Store(_, _, _)) = (
        terms.sort(chosen),
        terms.node(TermId((count - 3) as usize)),
    ) else {
        return out.add("no memories");
    };
    add_number_of(
        alloc,
        terms,
        env,
        &mut scratch,
        TermId((count - 1) as usize),
        out,
    );
    add_word_of(alloc, terms, env, &mut scratch, chosen, 3, out);
    add_word_of(alloc, terms, env, &mut scratch, chosen, 1, out);
    out.add(" ");
    out.add_number(alloc, u128::from(count));
}

/// Adds how many terms are left after a cut to the sample, and the number of d.
fn add_left(alloc: Global, terms: &Terms, env: &Env, out: &mut Sheet)
    requires fits { Fits terms.now env.now }
{
    let Ok(mut scratch) = Scratch::new(alloc, terms) else {
        return out.add("no memory");
    };
    out.add(" ");
    out.add_number(alloc, u128::from(terms.len()));
    out.add(" ");
    add_number_of(alloc, terms, env, &mut scratch, TermId(3), out);
}

/// Adds what is read through a store and a choice of memories, and what is left after a cut to the sample.
pub fn add_stored(alloc: Global, text: &str, out: &mut Sheet) {
    let mut terms = match sample(alloc, text) {
        Ok(terms) => terms,
        Err(told) => return out.add(told),
    };
    let Ok(env) = environment(alloc) else {
        return out.add("no memory");
    };
    add_read(alloc, &terms, &env, out);
    terms.cut(COUNT);
    add_left(alloc, &terms, &env, out);
}
