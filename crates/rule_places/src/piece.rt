//! The text of a design as a list of plain numbers: what its modules read and assign, in the order of the text, and what is known of
//! each name.

/// The number of no name.
pub(crate) const NO_NAME: usize = usize::MAX;

/// A place in the text: the number of its module, and of its name or number in there, both from 0. They are in the order of the text.
#[derive(Clone, Copy)]
pub(crate) struct Found {
    pub(crate) module: usize,
    pub(crate) token: usize,
}

/// What stands at a place of the list.
#[derive(Clone, Copy, PartialEq, Eq)]
pub(crate) enum What {
    /// A name in an expression.
    Read,
    /// A name in a target, or a net that is declared with a value.
    Written,
    /// The port of an instance to which an expression is connected, or an input of the top.
    Into,
    /// An output that is connected, or one of the top.
    Out,
    /// A name in a list of events. Its bits are 3 for the edge of a clock, 2 for that of another name of one bit.
    Event,
    /// A name or a number whose bits a value has one by one, from the high end.
    Copied,
    /// An assignment has its target and its value. Its bits are 1 where the value is signed; the flag says that it is copied.
    Assigned,
    /// The branches of an `if` or a `case` begin.
    Choice,
    /// A branch begins.
    Branch,
    /// A branch ends.
    EndBranch,
    /// The branches end; the flag says that one of them is always taken.
    EndChoice,
}

/// In what a piece stands.
#[derive(Clone, Copy, PartialEq, Eq)]
pub(crate) enum Site {
    /// A declaration, or the values of parameters.
    Declaration,
    /// A continuous assignment, or what is connected to an output.
    Link,
    /// A block that waits for an edge.
    Clocked,
    /// Another block.
    Combinational,
    /// What is connected to an input.
    Input,
}

/// A piece of the text.
#[derive(Clone, Copy)]
pub(crate) struct Piece {
    pub(crate) what: What,
    /// The number of its name.
    pub(crate) name: usize,
    /// The bits of the name that are meant, or may be meant.
    pub(crate) bits: u128,
    /// Whether its selects are constant.
    pub(crate) flag: bool,
    pub(crate) site: Site,
    /// The number of its block, or else of the piece itself.
    pub(crate) owner: usize,
    /// Its name in the text, or else the next name or number.
    pub(crate) found: Found,
}

/// An assignment, a block or a connection: where its pieces begin, and where they end.
#[derive(Clone, Copy)]
pub(crate) struct Driver {
    pub(crate) from: usize,
    pub(crate) to: usize,
    pub(crate) site: Site,
}

/// What is known of a name.
#[derive(Clone, Copy)]
pub(crate) struct Info {
    /// The bits of a net or a variable: one bit for all words of a memory, none for a constant.
    pub(crate) bits: u128,
    pub(crate) signed: bool,
    pub(crate) is_constant: bool,
    pub(crate) is_memory: bool,
    pub(crate) is_clock: bool,
    /// Whether it is declared as a port, a net or a variable.
    pub(crate) is_declared: bool,
    pub(crate) is_port: bool,
    pub(crate) is_input: bool,
    pub(crate) is_variable: bool,
    /// Whether something is connected to this port.
    pub(crate) is_linked: bool,
    /// How it is declared so far: 1 as a port without `wire` or `reg`, 2 as a net or a variable, 4 in the list of ports.
    pub(crate) standing: u8,
    /// From which name or number on it may be used, where it is a parameter.
    pub(crate) known: usize,
    /// The last instance that has a connection of this name.
    pub(crate) seen: usize,
    /// The bits that are driven so far, and those that were before the last block.
    pub(crate) driven: u128,
    pub(crate) before: u128,
    pub(crate) owner: usize,
    /// The bits that lie on loops.
    pub(crate) looped: u128,
}

/// What is known of a name of which nothing is known.
pub(crate) fn unknown() -> Info {
    Info {
        bits: 0,
        signed: false,
        is_constant: false,
        is_memory: false,
        is_clock: false,
        is_declared: false,
        is_port: false,
        is_input: false,
        is_variable: false,
        is_linked: false,
        standing: 0,
        known: NO_NAME,
        seen: NO_NAME,
        driven: 0,
        before: 0,
        owner: NO_NAME,
        looped: 0,
    }
}
