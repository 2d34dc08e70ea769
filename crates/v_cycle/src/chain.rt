//! The stores of a memory term, from the last one down to the name that they are made in.

ghost use Rattle.std.specs.Prelude.{◌≡◌, ◌<◌, length, IsTrue, slice_index_or};
ghost use Rattle.wb_values.specs.Value.{number};
ghost use Rattle.wb_terms.specs.Environment.{Fits, value_of, values_of};
ghost use Rattle.wb_terms.specs.Held.{Holds};
ghost use Rattle.v_cycle.specs.Changing.{stored_by};
ghost use Rattle.v_cycle.specs.Chain.{IsLinkAt};

use crate::changes::{Changes, Stored};
use wb_terms::{Env, Evaluated, NameId, Node, TermId, Terms};

/// How many stores there are among the terms.
pub(crate) fn store_count(terms: &Terms) -> usize {
    let mut count = 0;
    for k in 0..terms.len() as usize {
        if let Node::Store(_, _, _) = terms.node(TermId(k)) {
            count += 1;
        }
    }
    count
}

/// What the value of a term is made of.
enum Link {
    /// The value of a name.
    Base(NameId),
    /// The value of an earlier term.
    Same(TermId),
    /// The value of an earlier term, with a number stored in it.
    Over(Stored, TermId),
    /// It is no memory's.
    Other,
}

/// What the value of a term is made of, by its node alone.
fn link_at(terms: &Terms, env: &Env, words: &Evaluated, id: TermId) -> Link
    requires id { id.0 < length terms.now.nodes }
    requires holds { Holds terms.now env.now words.now }
    requires fits { Fits terms.now env.now }
    ensures { IsLinkAt terms.now env.now id.0 result }
{
    match *terms.node(id) {
        Node::Store(memory, place, x) => {
            let address = words.number(terms, env, place);
            let number = words.number(terms, env, x);
            Link::Over(Stored { address, number }, memory)
        }
        Node::Ite(condition, x, _) if words.number(terms, env, condition) == 1 => Link::Same(x),
        Node::Ite(_, _, y) => Link::Same(y),
        Node::Name(name) => {
            let _ = terms.name_count();
            Link::Base(name)
        }
        _ => Link::Other,
    }
}

/// Notes the stores that make the value of a term of that of a name, the last one first. It gives up where the term is over
/// another name, or where there is no room for them.
pub(crate) fn note_chain(
    changes: &mut Changes,
    terms: &Terms,
    env: &Env,
    words: &Evaluated,
    id: TermId,
    name: usize,
) -> bool
    requires id { id.0 < length terms.now.nodes }
    requires holds { Holds terms.now env.now words.now }
    requires fits { Fits terms.now env.now }
    ensures chain { IsTrue result → value_of terms.now env.now id.0
        ≡ stored_by (slice_index_or (values_of env.now) name (number 0)) changes.new.chain.items }
    ensures list { changes.new.list ≡ changes.old.list }
    ensures complete { changes.new.is_complete ≡ changes.old.is_complete }
{
    changes.chain.clear();
    let mut memory = id;
    loop {
        match link_at(terms, env, words, memory) {
            Link::Base(base) => return base.0 == name,
            Link::Same(earlier) => memory = earlier,
            Link::Over(stored, earlier) => {
                if !changes.add_store(stored) {
                    return false;
                }
                memory = earlier;
            }
            Link::Other => return false,
        }
    }
}
