//! The store of terms: names are declared, terms are put on earlier ones, and each keeps its sort.

ghost use Rattle.std.specs.Prelude.{◌≡◌, ℕ, ◌<◌, ◌↔◌, List, [], ◌∷◌, ◌++◌, false, map, length, take, IfOk, OnOk, OnErr, IsSome, IsTrue, option_map, string_bytes, slice_get, slice_index_or, is_some};
ghost use Rattle.wb_values.specs.Value.{Value, truth, entry_of, valuation_of};
ghost use Rattle.model_meaning.specs.Term.{is_sort, sort_of, val};
ghost use Rattle.wb_terms.specs.Sort.{as_sort};
ghost use Rattle.wb_terms.specs.Graph.{IsOver, HasDistinctNames, tree, trees_of, tree_of_node, with_name, with_node};
ghost use Rattle.wb_terms.specs.Environment.{values_by_name};
ghost use Rattle.wb_terms.specs.Renamed.{renamed};

use crate::NoMemory;
use crate::nodes::{NameId, Node, TermId};
use crate::sorts::{
    Sort, bits_sort, compared, concat_sort, const_sort, extended_sort, extract_sort, is_sort,
    ite_sort, load_sort, same_bits_sort, same_word_sort, store_sort, word_sort,
};
use std::alloc::Global;
use std::marker::Model;

/// Why a name or a term is not taken into a store.
#[derive(Clone, Copy, Debug, PartialEq, Eq)]
pub enum PutStop {
    /// It has no sort: a width or an index is out of range, a number does not fit, or an operand has another sort than its form wants.
    BadSort,
    /// Memory ran out.
    NoMemory,
}

/// A declared name and its sort.
#[derive(Drop)]
pub(crate) struct Declared {
    name: String,
    sort: Sort,
}

impl Declared {
    ghost use Rattle.wb_terms.specs.Entries.{name_of};

    /// These names, each with the sort of the declared name at its place.
    fn renamed(
        alloc: Global,
        olds: &[Declared],
        names: Vec<String>,
    ) -> Result<Vec<Declared>, NoMemory>
        requires { length names.items ≡ length olds.now }
        ensures { IfOk result (λ news. map name_of news.items ≡ renamed (map string_bytes names.items) (map name_of olds.now)) }
    {
        let mut news = Vec::with_capacity(alloc, olds.len())?;
        for name in names {
            let sort = olds[news.len()].sort;
            news.push(Declared { name, sort })?;
        }
        Ok(news)
    }
}

/// A term and its sort.
#[derive(Clone, Copy)]
pub(crate) struct Entry {
    node: Node,
    sort: Sort,
}

/// A store of terms over declared names. Each term stands on terms that were put before it, and has a sort.
/// Contracts see it as its names with their sorts and its nodes; no two of its names are equal.
#[derive(Drop)]
pub struct Terms {
    names: Vec<Declared>,
    terms: Vec<Entry>,
}

impl Model for Terms {
    ghost use Rattle.wb_terms.specs.Graph.{Graph};
    ghost use Rattle.wb_terms.specs.Entries.{graph_of, IsWellSorted};

    ghost Value = { Graph };

    ghost view = { λ a. graph_of a.names.items a.terms.items };

    ghost invariant = { λ a. IsWellSorted a.names.items a.terms.items };
}

/// For how many terms a new store makes room.
const FIRST_ROOM: usize = 64;

impl Terms {
    /// A store with no name and no term.
    pub fn new(alloc: Global) -> Result<Terms, NoMemory>
        ensures { IfOk result (λ terms. terms ≡ record { names = []; nodes = [] }) }
    {
        let terms = Vec::with_capacity(alloc, FIRST_ROOM)?;
        Ok(Terms {
            names: Vec::new(alloc),
            terms,
        })
    }

    /// Whether a name is declared. It looks through all names.
    pub fn is_declared(&self, name: &str) -> bool
        ensures { result ≡ is_some (entry_of self.now.names name.now) }
    {
        for each in &self.names {
            if each.name.as_str() == name {
                return true;
            }
        }
        false
    }

    /// Declares a name after the earlier ones. It must not have been declared (`is_declared`): the store does not look for it.
    pub fn declare(&mut self, name: String, sort: Sort) -> Result<NameId, PutStop>
        requires { entry_of self.old.names (string_bytes name) ≡ None }
        ensures id { IfOk result (λ id. id.0 ≡ length self.old.names) }
        ensures ok { OnOk result (self.new ≡ with_name self.old (string_bytes name) (as_sort sort)) }
        ensures trees { trees_of self.new ≡ trees_of self.old }
        ensures bad_sort { (result ≡ Err PutStop.BadSort) ↔ (is_sort (as_sort sort) ≡ false) }
        ensures err { OnErr result (self.new ≡ self.old) }
    {
        if !is_sort(sort) {
            return Err(PutStop::BadSort);
        }
        let id = self.names.len();
        if self.names.push(Declared { name, sort }).is_err() {
            return Err(PutStop::NoMemory);
        }
        Ok(NameId(id))
    }

    /// Puts a term behind the earlier ones. It takes no walk over its operands.
    pub fn put(&mut self, node: Node) -> Result<TermId, PutStop>
        requires { IsOver self.old (length self.old.nodes) node }
        ensures id { IfOk result (λ id. id.0 ≡ length self.old.nodes) }
        ensures ok { OnOk result (self.new ≡ with_node self.old node) }
        ensures trees { OnOk result (trees_of self.new ≡ trees_of self.old ++ tree_of_node self.old node ∷ []) }
        ensures sorted { OnOk result (IsSome (sort_of (tree_of_node self.old node))) }
        ensures bad_sort { (result ≡ Err PutStop.BadSort) ↔ (sort_of (tree_of_node self.old node) ≡ None) }
        ensures err { OnErr result (self.new ≡ self.old) }
    {
        let Some(sort) = self.sort_of_node(node) else {
            return Err(PutStop::BadSort);
        };
        let id = self.terms.len();
        if self.terms.push(Entry { node, sort }).is_err() {
            return Err(PutStop::NoMemory);
        }
        Ok(TermId(id))
    }

    /// The sort of a node by the sorts of its operands, where it has one.
    fn sort_of_node(&self, node: Node) -> Option<Sort>
        requires { IsOver self.now (length self.now.nodes) node }
        ensures { option_map as_sort result ≡ sort_of (tree_of_node self.now node) }
    {
        match node {
            Node::Name(name) => Some(self.name_sort(name)),
            Node::Truth(_) => Some(Sort::Truth),
            Node::Const(width, value) => const_sort(width, value),
            Node::Not(x) => bits_sort(self.sort(x)),
            Node::And(x, y) | Node::Or(x, y) | Node::Xor(x, y) => {
                same_bits_sort(self.sort(x), self.sort(y))
            }
            Node::Neg(x) => word_sort(self.sort(x)),
            Node::Add(x, y)
            | Node::Sub(x, y)
            | Node::Mul(x, y)
            | Node::Shl(x, y)
            | Node::Lshr(x, y)
            | Node::Ashr(x, y) => same_word_sort(self.sort(x), self.sort(y)),
            Node::Eq(x, y) => compared(same_bits_sort(self.sort(x), self.sort(y))),
            Node::Ult(x, y) | Node::Ule(x, y) | Node::Slt(x, y) | Node::Sle(x, y) => {
                compared(same_word_sort(self.sort(x), self.sort(y)))
            }
            Node::Concat(x, y) => concat_sort(self.sort(x), self.sort(y)),
            Node::Extract(high, low, x) => extract_sort(high, low, self.sort(x)),
            Node::Zext(width, x) | Node::Sext(width, x) => extended_sort(width, self.sort(x)),
            Node::Ite(condition, x, y) => {
                ite_sort(self.sort(condition), self.sort(x), self.sort(y))
            }
            Node::Load(memory, address) => load_sort(self.sort(memory), self.sort(address)),
            Node::Store(memory, address, x) => {
                store_sort(self.sort(memory), self.sort(address), self.sort(x))
            }
        }
    }

    /// The sort of a term. Under every environment that fits the names, its value is of this sort.
    pub fn sort(&self, id: TermId) -> Sort
        requires { id.0 < length self.now.nodes }
        ensures sort { sort_of (tree self.now id.0) ≡ Some (as_sort result) }
        ensures in_range { IsTrue (is_sort (as_sort result)) }
    {
        self.terms[id.0].sort
    }

    /// The term that was put with this id.
    pub fn node(&self, id: TermId) -> &Node
        requires { id.0 < length self.now.nodes }
        ensures put { slice_get self.now.nodes id.0 ≡ Some result.now }
        ensures tree { tree self.now id.0 ≡ tree_of_node self.now result.now }
        ensures over { IsOver self.now id.0 result.now }
        ensures sorted { IsSome (sort_of (tree self.now id.0)) }
    {
        &self.terms[id.0].node
    }

    /// The bytes of a declared name.
    pub fn name(&self, name: NameId) -> &str
        requires { name.0 < length self.now.names }
        ensures { result.now ≡ (slice_index_or self.now.names name.0 ([], truth)).0 }
    {
        self.names[name.0].name.as_str()
    }

    /// The sort of a declared name.
    pub fn name_sort(&self, name: NameId) -> Sort
        requires { name.0 < length self.now.names }
        ensures sort { as_sort result ≡ (slice_index_or self.now.names name.0 ([], truth)).1 }
        ensures in_range { IsTrue (is_sort (as_sort result)) }
        ensures distinct { HasDistinctNames self.now.names }
    {
        self.names[name.0].sort
    }

    /// How many names are declared; no two of them are equal.
    pub fn name_count(&self) -> u64
        ensures names { result ≡ length self.now.names }
        ensures distinct { HasDistinctNames self.now.names }
    {
        self.names.len() as u64
    }

    /// How many terms the store holds.
    pub fn len(&self) -> u64
        ensures terms { result ≡ length self.now.nodes }
        ensures trees { result ≡ length (trees_of self.now) }
    {
        self.terms.len() as u64
    }

    /// Whether the store holds no term.
    pub fn is_empty(&self) -> bool
        ensures { IsTrue result ↔ (self.now.nodes ≡ []) }
    {
        self.terms.is_empty()
    }

    /// Takes the terms from `len` on out of the store; the earlier ones stay.
    pub fn cut(&mut self, len: u64)
        ensures nodes { self.new ≡ record self.old { nodes = take len self.old.nodes } }
        ensures trees { trees_of self.new ≡ take len (trees_of self.old) }
    {
        self.terms.truncate(len as usize);
    }

    /// The store with these names in place of its own, in the order of declaration. Each keeps its sort, and each term its number.
    /// A term is worth what it was where the names at the same places have the same values. The terms are moved, not copied.
    pub fn with_names(self, alloc: Global, names: Vec<String>) -> Result<Terms, NoMemory>
        requires count { length names.items ≡ length self.names }
        requires distinct { HasDistinctNames (renamed (map string_bytes names.items) self.names) }
        ensures names { IfOk result (λ t. t ≡ record self { names = renamed (map string_bytes names.items) self.names }) }
        ensures sorts { IfOk result (λ t. (k : ℕ) → k < length t.nodes → sort_of (tree t k) ≡ sort_of (tree self k)) }
        ensures values { IfOk result (λ t. (vs : List Value) → length vs ≡ length t.names → (k : ℕ) → k < length t.nodes
            → val (tree t k) (valuation_of (values_by_name t.names vs)) ≡ val (tree self k) (valuation_of (values_by_name self.names vs))) }
    {
        let Terms { names: olds, terms } = self;
        let news = Declared::renamed(alloc, &olds, names)?;
        Ok(Terms { names: news, terms })
    }
}
