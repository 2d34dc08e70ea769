//! Expressions, targets and statements, as flat trees: a chain of any length is one node with a `Vec` of its links.

/// A number (1364-2005, 3.5.1).
#[derive(Clone, Copy, PartialEq, Eq, Debug)]
pub struct Number {
    /// Its width in bits, 32 where no size stands.
    pub width: u64,
    /// Whether a size stands before it.
    pub sized: bool,
    /// Whether it is signed: a plain decimal, or one with `s`.
    pub signed: bool,
    /// Whether some digit is x, of all digits as written.
    pub has_unknown: bool,
    /// Whether some digit is z or `?`, of all digits as written.
    pub has_wild: bool,
    /// Its bits, those of x and z digits as 0.
    pub value: u128,
    /// The bits of x digits.
    pub unknown: u128,
    /// The bits of z and `?` digits.
    pub wild: u128,
}

/// The operators before an operand (1364-2005, 5.1.2).
#[derive(Clone, Copy, PartialEq, Eq, Debug)]
pub enum PrefixOperator {
    /// `+`
    Plus,
    /// `-`
    Minus,
    /// `~`
    Complement,
    /// `!`
    IsZero,
    /// `&`
    AllOnes,
    /// `~&`
    NotAllOnes,
    /// `|`
    AnyOne,
    /// `~|`
    NoOne,
    /// `^`
    OddOnes,
    /// `~^` and `^~`
    EvenOnes,
}

/// The operators between two operands that make a word as wide as its context: arithmetic, bitwise operators and shifts.
#[derive(Clone, Copy, PartialEq, Eq, Debug)]
pub enum BinaryOperator {
    /// `**`
    Power,
    /// `*`
    Multiply,
    /// `/`
    Divide,
    /// `%`
    Modulo,
    /// `+`
    Add,
    /// `-`
    Subtract,
    /// `<<` and `<<<`
    ShiftLeft,
    /// `>>`
    ShiftRight,
    /// `>>>`
    ArithmeticShiftRight,
    /// `&`
    And,
    /// `^`
    Xor,
    /// `^~` and `~^`
    Xnor,
    /// `|`
    Or,
}

/// The operators between two operands that make one bit: comparisons, `&&` and `||`.
#[derive(Clone, Copy, PartialEq, Eq, Debug)]
pub enum TestOperator {
    /// `<`
    Less,
    /// `<=`
    LessOrEqual,
    /// `>`
    Greater,
    /// `>=`
    GreaterOrEqual,
    /// `==` and `===`
    Equal,
    /// `!=` and `!==`
    NotEqual,
    /// `&&`
    Both,
    /// `||`
    Either,
}

/// Expressions (1364-2005, A.8.3). Brackets leave no trace. Names are borrowed from the source.
#[derive(Drop)]
#[cycle(expression)]
pub enum Expression<'s> {
    /// A number.
    Number(Number),
    /// A name with up to two selects behind it.
    Name(&'s str, Selects<'s>),
    /// `{a, b}`, the parts from the high end.
    Concatenation(Vec<Expression<'s>>),
    /// `{n{a, b}}`: the count and the parts.
    Replication(Box<Expression<'s>>, Vec<Expression<'s>>),
    /// `$signed(a)`
    AsSigned(Box<Expression<'s>>),
    /// `$unsigned(a)`
    AsUnsigned(Box<Expression<'s>>),
    /// Operators before an operand, the outermost first.
    Prefix(Vec<PrefixOperator>, Box<Expression<'s>>),
    /// `a + b - c`: the first operand, and each further one with the operator before it, grouped to the left.
    Binary(Box<Expression<'s>>, Vec<BinaryLink<'s>>),
    /// `a < b` or `a && b && c`, grouped to the left.
    Test(Box<Expression<'s>>, Vec<TestLink<'s>>),
    /// `a ? b : c ? d : e`: the conditions with their values, and the last value, grouped to the right.
    Conditional(Vec<Choice<'s>>, Box<Expression<'s>>),
}

/// An operator with its right operand.
#[derive(Drop)]
#[cycle(expression)]
pub struct BinaryLink<'s> {
    pub operator: BinaryOperator,
    pub operand: Expression<'s>,
}

/// An operator with its right operand.
#[derive(Drop)]
#[cycle(expression)]
pub struct TestLink<'s> {
    pub operator: TestOperator,
    pub operand: Expression<'s>,
}

/// A condition with the value where it is true.
#[derive(Drop)]
#[cycle(expression)]
pub struct Choice<'s> {
    pub condition: Expression<'s>,
    pub value: Expression<'s>,
}

/// A select behind a name.
#[derive(Drop)]
#[cycle(expression)]
pub enum Select<'s> {
    /// `[index]`
    Index(Box<Expression<'s>>),
    /// `[left:right]`
    Part(Box<Expression<'s>>, Box<Expression<'s>>),
    /// `[base +: width]`
    PartUp(Box<Expression<'s>>, Box<Expression<'s>>),
    /// `[base -: width]`
    PartDown(Box<Expression<'s>>, Box<Expression<'s>>),
}

/// The selects behind a name: none, one or two.
#[derive(Drop)]
#[cycle(expression)]
pub enum Selects<'s> {
    Whole,
    One(Select<'s>),
    Two(Select<'s>, Select<'s>),
}

/// What is assigned to (1364-2005, A.8.5).
#[derive(Drop)]
pub enum Target<'s> {
    /// A name with up to two selects behind it.
    Place(&'s str, Selects<'s>),
    /// `{a, b}`, the parts from the high end.
    Joined(Vec<Target<'s>>),
}

/// Which words of a `case` match.
#[derive(Clone, Copy, PartialEq, Eq, Debug)]
pub enum CaseKind {
    /// `case`: equal words.
    Exact,
    /// `casez`: words equal but for the z and `?` bits of the item.
    Wild,
}

/// Statements (1364-2005, A.6.4).
#[derive(Drop)]
#[cycle(statement)]
pub enum Statement<'s> {
    /// `;`
    Empty,
    /// `target = value;`
    Blocking(Box<Target<'s>>, Expression<'s>),
    /// `target <= value;`
    Nonblocking(Box<Target<'s>>, Expression<'s>),
    /// `if (a) x else if (b) y else z`: the arms, and what stands behind the last `else`.
    If(Vec<Arm<'s>>, Option<Box<Statement<'s>>>),
    /// `case` or `casez`: the expression and its items.
    Case(CaseKind, Expression<'s>, Vec<CaseItem<'s>>),
    /// `begin .. end`, perhaps with a name, which means nothing.
    Block(Option<&'s str>, Vec<Statement<'s>>),
}

/// A condition with the statement that it guards.
#[derive(Drop)]
#[cycle(statement)]
pub struct Arm<'s> {
    pub condition: Expression<'s>,
    pub statement: Statement<'s>,
}

/// An item of a `case`.
#[derive(Drop)]
#[cycle(statement)]
pub enum CaseItem<'s> {
    /// `a, b: statement`
    Values(Vec<Expression<'s>>, Statement<'s>),
    /// `default: statement`
    Default(Statement<'s>),
}
