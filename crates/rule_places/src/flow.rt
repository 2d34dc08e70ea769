//! What a block or an assignment does bit by bit: which bits it assigns, and which bits of its names are open afterwards. Where loops are
//! looked for, a bit is open that rests on a bit that is not settled; where the paths of a block are looked at, all bits are open before it,
//! and those are afterwards that some path does not assign.

use crate::bits::below;
use crate::piece::{Piece, What};
use std::alloc::{AllocError, Global};
use std::collections::BTreeMap;

/// What is known of a name: the bits that are assigned in the branch that is read, and those of all its bits that are open. Of the branches
/// of a choice together: those that are so in one of them, and how many of them assign the name.
#[derive(Clone, Copy)]
pub(crate) struct State {
    pub(crate) assigned: u128,
    pub(crate) open: u128,
    count: usize,
}

/// A choice whose branches are read: whether its conditions rest on open bits, how many branches it has, and how they ended.
#[derive(Drop)]
struct Choice {
    condition: bool,
    branches: usize,
    ends: BTreeMap<usize, State>,
}

/// What is asked of a block.
#[derive(Clone, Copy, PartialEq, Eq)]
pub(crate) enum Aim {
    /// Which bits rest on open ones.
    Loops,
    /// Which bits some path does not assign, or reads before it assigns them.
    Paths,
    /// The same, where what stands in the list of events may be read.
    Events,
}

/// What is read of a block so far.
#[derive(Drop)]
pub(crate) struct Flow {
    alloc: Global,
    aim: Aim,
    /// What is known of each name that is assigned.
    pub(crate) known: BTreeMap<usize, State>,
    /// The bits that were read while they were open, where paths are looked at.
    pub(crate) read: BTreeMap<usize, u128>,
    /// For each branch that is read what was known before it of the names that it assigns.
    branches: Vec<BTreeMap<usize, State>>,
    choices: Vec<Choice>,
    /// Where the assignment begins that is read.
    start: Option<usize>,
    /// How many names were gone through at the ends of branches.
    pub(crate) moves: usize,
    is_cut: bool,
}

/// The most names that are gone through at the ends of the branches of a block: what is assigned deep inside is so at each depth.
const MOST_MOVES: usize = 1 << 22;

/// What is known of a name before anything is: these bits are open.
fn only_open(open: u128) -> State {
    State {
        assigned: 0,
        open,
        count: 0,
    }
}

impl Flow {
    /// A block before its first statement.
    fn new(alloc: Global, aim: Aim) -> Flow {
        Flow {
            alloc,
            aim,
            known: BTreeMap::new(alloc),
            read: BTreeMap::new(alloc),
            branches: Vec::new(alloc),
            choices: Vec::new(alloc),
            start: None,
            moves: 0,
            is_cut: false,
        }
    }

    /// What is known of a name.
    fn state_of(&self, outside: &[u128], name: usize) -> State {
        if let Some(state) = self.known.get(&name).copied() {
            return state;
        }
        if self.aim == Aim::Loops {
            return only_open(outside.get(name).copied().unwrap_or(0));
        }
        only_open(u128::MAX)
    }

    /// Lets this be known of a name.
    fn put(&mut self, name: usize, state: State) {
        if self.known.insert(name, state).is_err() {
            self.is_cut = true;
        }
    }

    /// Keeps for the branch that is read what was known of a name before it. Says whether that is new.
    fn keep(&mut self, name: usize, before: State) -> bool {
        let Some(branch) = self.branches.last_mut() else {
            return false;
        };
        if branch.contains_key(&name) {
            return false;
        }
        if branch.insert(name, before).is_err() {
            self.is_cut = true;
        }
        true
    }

    /// Assigns bits of a name, of which these are open afterwards.
    fn assign(&mut self, outside: &[u128], name: usize, bits: u128, open: u128) {
        let before = self.state_of(outside, name);
        let earlier = if self.keep(name, before) {
            0
        } else {
            before.assigned
        };
        self.put(
            name,
            State {
                assigned: earlier | bits,
                open: (before.open & !bits) | (open & bits),
                count: 0,
            },
        );
    }

    /// Assigns a word to the targets of an assignment, which has these pieces, from the low end. `rests` says whether something that it
    /// reads is open.
    fn assign_all(&mut self, pieces: &[Piece], outside: &[u128], word: u128, rests: bool) {
        let mut left = word;
        for piece in pieces.iter().rev() {
            if matches!(piece.what, What::Written | What::Into) {
                let bits = piece.bits;
                let open = if piece.flag {
                    left.checked_shl(bits.trailing_zeros()).unwrap_or(0)
                } else if rests {
                    u128::MAX
                } else {
                    self.state_of(outside, piece.name).open
                };
                self.assign(outside, piece.name, bits, open);
                if piece.flag {
                    left = left.checked_shr(bits.count_ones()).unwrap_or(0);
                }
            }
        }
    }

    /// Whether something that these pieces read is open.
    fn rests(&self, pieces: &[Piece], outside: &[u128]) -> bool {
        for piece in pieces {
            let is_read = matches!(piece.what, What::Read | What::Copied);
            if is_read && self.state_of(outside, piece.name).open & piece.bits != 0 {
                return true;
            }
        }
        false
    }

    /// The open bits of the value that these pieces copy.
    fn copied(&self, pieces: &[Piece], outside: &[u128], signed: bool) -> u128 {
        let mut word: u128 = 0;
        let mut width: u32 = 0;
        for piece in pieces {
            if piece.what == What::Copied {
                let open = self.state_of(outside, piece.name).open & piece.bits;
                let count = piece.bits.count_ones();
                let own = open.checked_shr(piece.bits.trailing_zeros()).unwrap_or(0);
                word = word.checked_shl(count).unwrap_or(0) | own;
                width = width.saturating_add(count);
            }
        }
        if signed && word & !below(width.saturating_sub(1)) != 0 {
            return word | !below(width);
        }
        word
    }

    /// Ends an assignment, whose pieces these are.
    fn end_assignment(&mut self, pieces: &[Piece], outside: &[u128], end: Piece) {
        if self.aim != Aim::Loops {
            self.assign_all(pieces, outside, 0, false);
            return;
        }
        let rests = self.rests(pieces, outside);
        let word = if end.flag {
            self.copied(pieces, outside, end.bits != 0)
        } else if rests {
            u128::MAX
        } else {
            0
        };
        self.assign_all(pieces, outside, word, rests);
    }

    /// Goes past a name that is read. Outside of assignments it is read by a condition.
    fn pass_read(&mut self, piece: Piece, outside: &[u128]) {
        let open = self.state_of(outside, piece.name).open & piece.bits;
        if open == 0 {
            return;
        }
        if self.aim != Aim::Loops {
            let all = self.read.get(&piece.name).copied().unwrap_or(0) | open;
            if self.read.insert(piece.name, all).is_err() {
                self.is_cut = true;
            }
        } else if self.start.is_none() {
            if let Some(choice) = self.choices.last_mut() {
                choice.condition = true;
            }
        }
    }

    /// Begins a choice.
    fn begin_choice(&mut self) {
        let choice = Choice {
            condition: false,
            branches: 0,
            ends: BTreeMap::new(self.alloc),
        };
        if self.choices.push(choice).is_err() {
            self.is_cut = true;
        }
    }

    /// Begins a branch.
    fn begin_branch(&mut self) {
        if self.branches.push(BTreeMap::new(self.alloc)).is_err() {
            self.is_cut = true;
        }
    }

    /// Ends a branch: what is known is again what was before it.
    fn end_branch(&mut self) {
        let Some(branch) = self.branches.pop() else {
            return;
        };
        let Some(choice) = self.choices.last_mut() else {
            return;
        };
        choice.branches = choice.branches.saturating_add(1);
        self.moves = self.moves.saturating_add(branch.len());
        if self.moves > MOST_MOVES {
            return;
        }
        for (name, before) in &branch {
            let now = self.known.get(name).copied().unwrap_or(only_open(0));
            let end = choice.ends.get(name).copied().unwrap_or(only_open(0));
            let both = State {
                assigned: end.assigned | now.assigned,
                open: end.open | now.open,
                count: end.count.saturating_add(1),
            };
            if choice.ends.insert(*name, both).is_err()
                || self.known.insert(*name, *before).is_err()
            {
                self.is_cut = true;
            }
        }
    }

    /// Ends a choice, of which one branch is taken in each case or not. A name that not each branch assigns may also stay as it was; all
    /// that a branch assigns is open where a condition rests on open bits.
    fn end_choice(&mut self, outside: &[u128], is_full: bool) {
        let Some(choice) = self.choices.pop() else {
            return;
        };
        for (name, end) in &choice.ends {
            let mut open = end.open;
            if !is_full || end.count < choice.branches {
                open = open | self.state_of(outside, *name).open;
            }
            if choice.condition {
                open = open | end.assigned;
            }
            self.assign(outside, *name, end.assigned, open);
        }
    }

    /// Goes past a piece of a block or of an assignment.
    fn pass(&mut self, pieces: &[Piece], outside: &[u128], place: usize, piece: Piece) {
        match piece.what {
            What::Written | What::Into => self.start = Some(self.start.unwrap_or(place)),
            What::Read | What::Copied => self.pass_read(piece, outside),
            What::Assigned => {
                let start = self.start.take().unwrap_or(place);
                if let Some(own) = pieces.get(start..place) {
                    self.end_assignment(own, outside, piece);
                }
            }
            What::Choice => self.begin_choice(),
            What::Branch => self.begin_branch(),
            What::EndBranch => self.end_branch(),
            What::EndChoice => self.end_choice(outside, piece.flag),
            What::Event => {
                if self.aim == Aim::Events {
                    self.put(piece.name, only_open(0));
                }
            }
            What::Out => {}
        }
    }
}

/// A block or an assignment with these pieces, read to its end, where these bits are open before it. Nothing is known where it takes too much.
pub(crate) fn flow_of(
    pieces: &[Piece],
    alloc: Global,
    outside: &[u128],
    aim: Aim,
) -> Result<Flow, AllocError> {
    let mut flow = Flow::new(alloc, aim);
    for (place, piece) in pieces.iter().enumerate() {
        flow.pass(pieces, outside, place, *piece);
    }
    if flow.is_cut {
        return Err(AllocError);
    }
    if flow.moves > MOST_MOVES {
        flow.known.clear();
        flow.read.clear();
    }
    Ok(flow)
}
