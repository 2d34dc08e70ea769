//! The values of all terms of a store under an environment, by one pass, and cheap reads of them.

ghost use Rattle.std.specs.Prelude.{◌≡◌, ◌<◌, ◌≤◌, length, slice_index, IfOk};
ghost use Rattle.wb_values.specs.Value.{numeral_of, as_words};
ghost use Rattle.model_meaning.specs.Term.{sort_of};
ghost use Rattle.wb_terms.specs.Graph.{tree};
ghost use Rattle.wb_terms.specs.Environment.{Fits, value_of, HasSortOf, IsAddressOf};
ghost use Rattle.wb_terms.specs.Held.{AreHeld, Holds};

use crate::NoMemory;
use crate::evaluation::{word_at, word_of};
use crate::nodes::TermId;
use crate::store::Terms;
use crate::values::Env;
use std::alloc::Global;
use std::marker::Model;
use wb_bits::Word;

/// Room for the values of all terms of a store, each kept as a word. Contracts see the list of the words.
#[derive(Drop)]
pub struct Evaluated {
    words: Vec<Word>,
}

impl Model for Evaluated {
    ghost use Rattle.std.specs.Prelude.{List};
    ghost use Rattle.wb_bits.specs.declared.Word.{Word};

    ghost Value = { List Word };

    ghost view = { λ e. e.words.items };
}

impl Evaluated {
    /// Room for as many terms as the store has. It holds no value yet.
    pub fn new(alloc: Global, terms: &Terms) -> Result<Evaluated, NoMemory>
        ensures { IfOk result (λ evaluated. length evaluated ≡ length terms.now.nodes) }
    {
        let words = vec![in alloc; Word::new(1, 0); terms.len() as usize]?;
        Ok(Evaluated { words })
    }

    /// Evaluates every term of the store under the environment, by ascending id and each once. It takes no memory.
    pub fn evaluate(&mut self, terms: &Terms, env: &Env)
        requires room { length terms.now.nodes ≤ length self.old }
        requires fits { Fits terms.now env.now }
        ensures holds { Holds terms.now env.now self.new }
        ensures room { length self.new ≡ length self.old }
    {
        fill_all(terms, env, &mut self.words);
    }

    /// The value of a truth value, as 0 or 1, or of a word, as the pass under this environment has left it. A memory has no
    /// number: it gives 0.
    pub fn number(&self, terms: &Terms, env: &Env, id: TermId) -> u128
        requires id { id.0 < length terms.now.nodes }
        requires holds { Holds terms.now env.now self.now }
        ensures value { result ≡ numeral_of (value_of terms.now env.now id.0) }
        ensures sorted { HasSortOf (value_of terms.now env.now id.0) (sort_of (tree terms.now id.0)) }
    {
        self.words[id.0].value
    }

    /// The word at an address of the value of a memory, by the pass under this environment.
    pub fn word_at(&self, terms: &Terms, env: &Env, id: TermId, address: u64) -> u128
        requires id { id.0 < length terms.now.nodes }
        requires holds { Holds terms.now env.now self.now }
        requires fits { Fits terms.now env.now }
        requires address { IsAddressOf address (sort_of (tree terms.now id.0)) }
        ensures value { result ≡ slice_index (as_words (value_of terms.now env.now id.0)) address }
        ensures sorted { HasSortOf (value_of terms.now env.now id.0) (sort_of (tree terms.now id.0)) }
    {
        word_at(terms, env, &self.words, id, address).value
    }
}

/// Evaluates all terms, by ascending id.
fn fill_all(terms: &Terms, env: &Env, words: &mut [Word])
    requires room { length terms.now.nodes ≤ length words.old }
    requires fits { Fits terms.now env.now }
    ensures { AreHeld terms.now env.now words.new (length terms.now.nodes) }
{
    for k in 0..terms.len() as usize {
        words[k] = word_of(terms, env, words, TermId(k));
    }
}
