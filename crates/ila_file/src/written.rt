//! A model file as it is written: lists in their order, with names, widths and numbers as they stand there.

/// The operators with one operand.
#[derive(Clone, Copy, PartialEq, Eq, Debug)]
pub enum UnaryOperator {
    /// The complement of a truth value, or of each bit of a word.
    Not,
    /// The word that gives 0 with the operand, modulo 2^width.
    Neg,
}

/// The operators with two operands.
#[derive(Clone, Copy, PartialEq, Eq, Debug)]
pub enum BinaryOperator {
    /// The conjunction of two truth values, or of two words bit by bit.
    And,
    /// The disjunction of two truth values, or of two words bit by bit.
    Or,
    /// Whether two truth values differ, or the bits in which two words do.
    Xor,
    /// The sum modulo 2^width.
    Add,
    /// The difference modulo 2^width.
    Sub,
    /// The product modulo 2^width.
    Mul,
    /// A shift to the left.
    Shl,
    /// A shift to the right, with zeros at the top.
    Lshr,
    /// A shift to the right, with copies of the top bit.
    Ashr,
    /// Whether the operands are equal.
    Eq,
    /// Below, of unsigned numbers.
    Ult,
    /// At most, of unsigned numbers.
    Ule,
    /// Below, of two's-complement numbers.
    Slt,
    /// At most, of two's-complement numbers.
    Sle,
    /// The first word above the second.
    Concat,
    /// The word of a memory at an address.
    Load,
}

/// How a word is widened.
#[derive(Clone, Copy, PartialEq, Eq, Debug)]
pub enum Widening {
    /// By zeros.
    Zext,
    /// By copies of its top bit.
    Sext,
}

/// A term, at most 126 levels deep: a name stands without its sort, and widths, indexes and numbers are as they are written.
#[derive(Drop)]
pub enum WrittenTerm<'v> {
    /// A name.
    Name(&'v str),
    /// A truth value.
    Truth(bool),
    /// A word by its width in bits and its number.
    Const(u64, u128),
    /// An operator with one operand.
    Unary(UnaryOperator, Box<WrittenTerm<'v>>),
    /// An operator with two operands.
    Binary(BinaryOperator, Box<WrittenTerm<'v>>, Box<WrittenTerm<'v>>),
    /// The bits from a high index down to a low one.
    Extract(u64, u64, Box<WrittenTerm<'v>>),
    /// A word widened to a width in bits.
    Widen(Widening, u64, Box<WrittenTerm<'v>>),
    /// A condition, the value where it is true, and the value where it is false.
    Ite(Box<WrittenTerm<'v>>, Box<WrittenTerm<'v>>, Box<WrittenTerm<'v>>),
    /// A memory, an address, and the word that it has there.
    Store(Box<WrittenTerm<'v>>, Box<WrittenTerm<'v>>, Box<WrittenTerm<'v>>),
}

/// A sort, its widths as they are written.
#[derive(Clone, Copy, PartialEq, Eq, Debug)]
pub enum WrittenSort {
    /// A truth value.
    Truth,
    /// A word of so many bits.
    Word(u64),
    /// A memory: the bits of its addresses, and of its words.
    Memory(u64, u64),
}

/// An initial value.
#[derive(Clone, Copy, PartialEq, Eq, Debug)]
pub enum WrittenValue {
    /// A truth value.
    Truth(bool),
    /// The unsigned number of a word.
    Number(u128),
}

/// A state.
#[derive(Clone, Copy)]
pub struct WrittenState<'v> {
    pub name: &'v str,
    pub sort: WrittenSort,
    /// The initial value where one is stated. A memory states none.
    pub initial: Option<WrittenValue>,
}

/// An input: a truth value or a word.
#[derive(Clone, Copy)]
pub struct WrittenInput<'v> {
    pub name: &'v str,
    pub sort: WrittenSort,
}

/// A name for a term.
#[derive(Drop)]
pub struct Definition<'v> {
    pub name: &'v str,
    pub term: WrittenTerm<'v>,
}

/// An update: the term that a state takes its new value from.
#[derive(Drop)]
pub struct WrittenUpdate<'v> {
    /// The state's name.
    pub state: &'v str,
    pub term: WrittenTerm<'v>,
}

/// An instruction.
#[derive(Drop)]
#[cycle(machine)]
pub struct WrittenInstruction<'v> {
    pub name: &'v str,
    /// The condition under which it is taken.
    pub decode: WrittenTerm<'v>,
    /// By ascending names of states.
    pub updates: Vec<WrittenUpdate<'v>>,
    /// The child program, if it has one.
    pub child: Option<Box<WrittenChild<'v>>>,
}

/// A child program: a machine, and how many steps of it are taken at most.
#[derive(Drop)]
#[cycle(machine)]
pub struct WrittenChild<'v> {
    pub steps: u64,
    pub machine: WrittenMachine<'v>,
}

/// What a model and a child program have in common.
#[derive(Drop)]
#[cycle(machine)]
pub struct WrittenMachine<'v> {
    pub states: Vec<WrittenState<'v>>,
    pub definitions: Vec<Definition<'v>>,
    /// The term that the name `fetch` stands for, where there is one.
    pub fetch: Option<WrittenTerm<'v>>,
    /// The condition under which a step is taken.
    pub valid: WrittenTerm<'v>,
    pub instructions: Vec<WrittenInstruction<'v>>,
}

/// A model file.
#[derive(Drop)]
pub struct WrittenModel<'v> {
    pub name: &'v str,
    pub inputs: Vec<WrittenInput<'v>>,
    pub machine: WrittenMachine<'v>,
}
