//! Declarations, module items, modules and sources, as they are written. What most of them go without stands behind a `Box`.
use crate::tree::{Expression, Statement, Target};

/// The edge of an event.
#[derive(Clone, Copy, PartialEq, Eq, Debug)]
pub enum EdgeKind {
    /// `posedge n`
    Posedge,
    /// `negedge n`
    Negedge,
    /// `n`
    AnyEdge,
}

/// One event of an event list.
#[derive(Clone, Copy)]
pub struct Event<'s> {
    pub edge: EdgeKind,
    pub signal: &'s str,
}

/// What a block waits for.
#[derive(Drop)]
pub enum Events<'s> {
    /// `@*` and `@(*)`
    AnyChange,
    /// `@(posedge a or b)`
    OnEvents(Vec<Event<'s>>),
}

/// A range `[left:right]`.
#[derive(Drop)]
pub struct Range<'s> {
    pub left: Expression<'s>,
    pub right: Expression<'s>,
}

/// The direction of a port.
#[derive(Clone, Copy, PartialEq, Eq, Debug)]
pub enum Direction {
    Input,
    Output,
}

/// Whether a port is declared as a net or as a variable.
#[derive(Clone, Copy, PartialEq, Eq, Debug)]
pub enum NetKind {
    Wire,
    Reg,
}

/// A declaration of ports.
#[derive(Drop)]
pub struct PortDeclaration<'s> {
    pub direction: Direction,
    /// `wire` or `reg`, where it stands there.
    pub kind: Option<NetKind>,
    pub signed: bool,
    pub range: Option<Box<Range<'s>>>,
    pub names: Vec<&'s str>,
}

/// A parameter with its value.
#[derive(Drop)]
pub struct ParameterValue<'s> {
    pub name: &'s str,
    pub value: Expression<'s>,
}

/// A declaration of parameters.
#[derive(Drop)]
pub struct ParameterDeclaration<'s> {
    /// Whether it is a `localparam`.
    pub is_local: bool,
    pub signed: bool,
    pub range: Option<Box<Range<'s>>>,
    pub values: Vec<ParameterValue<'s>>,
}

/// A connection by name, perhaps empty.
#[derive(Drop)]
pub struct NamedConnection<'s> {
    pub name: &'s str,
    pub value: Option<Expression<'s>>,
}

/// Connections of ports or parameters.
#[derive(Drop)]
pub enum Connections<'s> {
    /// `.a(x), .b()`
    ByName(Vec<NamedConnection<'s>>),
    /// `x, , y`, where an entry may be left empty.
    ByOrder(Vec<Option<Expression<'s>>>),
}

/// A net with the expression that its declaration gives it, if there is one.
#[derive(Drop)]
pub struct Wire<'s> {
    pub name: &'s str,
    pub value: Option<Box<Expression<'s>>>,
}

/// A variable, or a memory where it has a range of addresses.
#[derive(Drop)]
pub struct Variable<'s> {
    pub name: &'s str,
    pub addresses: Option<Box<Range<'s>>>,
}

/// A continuous assignment.
#[derive(Drop)]
pub struct Assignment<'s> {
    pub target: Target<'s>,
    pub value: Expression<'s>,
}

/// An instance of a module.
#[derive(Drop)]
pub struct Instance<'s> {
    pub name: &'s str,
    pub connections: Connections<'s>,
}

/// Module items (1364-2005, A.1.4).
#[derive(Drop)]
pub enum Item<'s> {
    Port(PortDeclaration<'s>),
    Parameter(ParameterDeclaration<'s>),
    /// `wire`: whether signed, the range, the nets.
    Wires(bool, Option<Box<Range<'s>>>, Vec<Wire<'s>>),
    /// `reg`: whether signed, the range, the variables.
    Variables(bool, Option<Box<Range<'s>>>, Vec<Variable<'s>>),
    Assign(Vec<Assignment<'s>>),
    Always(Events<'s>, Box<Statement<'s>>),
    /// Of which module, its parameters, the instances.
    Instances(&'s str, Connections<'s>, Vec<Instance<'s>>),
}

/// What stands in the brackets behind a module's name.
#[derive(Drop)]
pub enum Ports<'s> {
    /// No list.
    NoPorts,
    /// Names alone.
    Listed(Vec<&'s str>),
    /// Declarations.
    Declared(Vec<PortDeclaration<'s>>),
}

/// A module (1364-2005, A.1.2).
#[derive(Drop)]
pub struct Module<'s> {
    pub name: &'s str,
    pub parameters: Vec<ParameterDeclaration<'s>>,
    pub ports: Ports<'s>,
    pub items: Vec<Item<'s>>,
}

/// A source: its modules in the order of the text.
#[derive(Drop)]
pub struct Tree<'s> {
    pub modules: Vec<Module<'s>>,
}
