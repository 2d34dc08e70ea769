//! Terms are put as they are written, each name by the term that it stands for.

ghost use Rattle.std.specs.Prelude.{◌≡◌, ◌≤◌, ◌+◌, length};
ghost use Rattle.wb_terms.specs.Graph.{tree};
ghost use Rattle.ila_file.specs.View.{term_view};
ghost use Rattle.ila_build.specs.Sizes.{terms_for, terms_of_name};
ghost use Rattle.ila_build.specs.Standing.{AreIn, IsIn, IsPut, IsShared, found, found_alone, seen, seen_by, term_by, under_name};

use crate::nodes::{put_binary, put_const, put_extract, put_node, put_unary, put_widened};
use ila_file::WrittenTerm;
use std::collections::BTreeMap;
use wb_terms::{Node, PutStop, TermId, Terms};

/// What the table says of a name.
pub(crate) fn under_name<'v>(known: &BTreeMap<&'v [u8], TermId>, name: &'v str) -> Option<TermId>
    ensures { result ≡ under_name known.now name.now }
{
    known.get(&name.as_bytes()).copied()
}

/// What a name stands for.
fn found<'v>(
    known: &BTreeMap<&'v [u8], TermId>,
    fetch: Option<TermId>,
    name: &'v str,
) -> Option<TermId>
    ensures { result ≡ found known.now fetch name.now }
{
    match fetch {
        Some(term) => {
            if "fetch" == name {
                Some(term)
            } else {
                under_name(known, name)
            }
        }
        None => under_name(known, name),
    }
}

/// The term of a name. An unknown name is read as false.
fn put_name(terms: &mut Terms, standing: Option<TermId>) -> Result<TermId, PutStop>
    requires { IsIn terms.old standing }
    ensures put { IsPut terms.old terms.new result (seen terms.old standing) }
    ensures shared { IsShared terms.old terms.new result standing }
    ensures added { length terms.new.nodes ≤ length terms.old.nodes + terms_of_name standing }
{
    match standing {
        Some(term) => Ok(term),
        None => put_node(terms, Node::Truth(false)),
    }
}

/// Puts a term. What its names stand for is shared, and not copied.
#[cycle(put)]
pub fn put_term<'v>(
    terms: &mut Terms,
    known: &BTreeMap<&'v [u8], TermId>,
    fetch: Option<TermId>,
    term: &WrittenTerm<'v>,
) -> Result<TermId, PutStop>
    requires { AreIn terms.old known.now fetch }
    ensures put { IsPut terms.old terms.new result (term_by (seen_by terms.old known.now fetch) (term_view term.now)) }
    ensures shared { IsShared terms.old terms.new result (found_alone (found known.now fetch) (term_view term.now)) }
    ensures added { length terms.new.nodes ≤ length terms.old.nodes + terms_for (found known.now fetch) (term_view term.now) }
{
    match term {
        WrittenTerm::Name(name) => put_name(terms, found(known, fetch, name)),
        WrittenTerm::Truth(truth) => put_node(terms, Node::Truth(*truth)),
        WrittenTerm::Const(width, value) => put_const(terms, *width, *value),
        WrittenTerm::Unary(operator, x) => {
            let x = put_term(terms, known, fetch, x)?;
            put_unary(terms, *operator, x)
        }
        WrittenTerm::Binary(operator, x, y) => {
            let x = put_term(terms, known, fetch, x)?;
            let y = put_term(terms, known, fetch, y)?;
            put_binary(terms, *operator, x, y)
        }
        WrittenTerm::Extract(high, low, x) => {
            let x = put_term(terms, known, fetch, x)?;
            put_extract(terms, *high, *low, x)
        }
        WrittenTerm::Widen(widening, width, x) => {
            let x = put_term(terms, known, fetch, x)?;
            put_widened(terms, *widening, *width, x)
        }
        WrittenTerm::Ite(condition, x, y) => {
            let condition = put_term(terms, known, fetch, condition)?;
            let x = put_term(terms, known, fetch, x)?;
            let y = put_term(terms, known, fetch, y)?;
            put_node(terms, Node::Ite(condition, x, y))
        }
        WrittenTerm::Store(memory, address, x) => {
            let memory = put_term(terms, known, fetch, memory)?;
            let address = put_term(terms, known, fetch, address)?;
            let x = put_term(terms, known, fetch, x)?;
            put_node(terms, Node::Store(memory, address, x))
        }
    }
}
