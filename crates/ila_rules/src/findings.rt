//! What was found broken on the way through a model file, with the first place of each rule.

ghost use Rattle.std.specs.Prelude.{◌≡◌, ◌||◌, IfOk, option_map};
ghost use Rattle.model_meaning.specs.Term.{is_memory_sort};
ghost use Rattle.model_files.specs.Rules.{fits_sort};
ghost use Rattle.ila_file.specs.View.{sort_view, term_view, initial_view};
ghost use Rattle.ila_file.specs.Places.{spot_view, way_of, found_text};
ghost use Rattle.model_places.specs.Notes.{note_at};
ghost use Rattle.ila_rules.specs.Seen.{uses_unknown, updates_none, has_role_sort, copies_at, is_memory_called, brief_at, fits_role};
ghost use Rattle.ila_rules.specs.Flaws.{with_term, with_declared, no_flaws, kept_first, entered, left};
ghost use Rattle.ila_rules.specs.declared.findings.Role.TheVariants.{Fetch};
ghost use Rattle.ila_rules.specs.View.{look_of, name_view, brief_view, role_view, flaws_view};

use crate::scope::{Frame, Seen};
use crate::sorts::{is_sort, same_sort};
use crate::terms::{fits, has_fitting_constants, has_widths, memory_of, sort_of, uses_unknown};
use ila_file::{NoMemory, Note, Place, Spot, WrittenSort, WrittenTerm, WrittenValue};
use std::alloc::Global;

/// Where a term stands.
#[derive(Clone, Copy)]
pub(crate) enum Role<'v> {
    Definition,
    Fetch,
    /// A valid or decode condition.
    Condition,
    /// An update, by its state's name, with the state's sort if it names a state.
    Update(&'v str, Option<WrittenSort>),
}

/// The way through a model file, and the first place at which each rule was broken on it.
#[derive(Drop)]
pub(crate) struct Findings {
    pub(crate) alloc: Global,
    pub(crate) place: Place,
    pub(crate) unknown_name: Option<Note>,
    pub(crate) bad_width: Option<Note>,
    pub(crate) bad_sort: Option<Note>,
    pub(crate) bad_number: Option<Note>,
    pub(crate) memory_copy: Option<Note>,
}

fn updates_none(role: Role<'_>) -> bool
    ensures { result ≡ updates_none (role_view role.entry) }
{
    match role {
        Role::Update(_, sort) => sort.is_none(),
        _ => false,
    }
}

fn is_unknown<'v>(
    term: &WrittenTerm<'v>,
    role: Role<'v>,
    frames: &[Frame<'v>],
    last: &Frame<'v>,
) -> bool
    ensures { result ≡ (uses_unknown (look_of frames.now last.now) (term_view term.now) || updates_none (role_view role.entry)) }
{
    uses_unknown(term, frames, last) || updates_none(role)
}

fn fits_role(role: Role<'_>, sort: WrittenSort) -> bool
    ensures { result ≡ fits_role (role_view role.entry) (sort_view sort) }
{
    match role {
        Role::Definition => true,
        Role::Fetch => is_bits(sort),
        Role::Condition => same_sort(WrittenSort::Truth, sort),
        Role::Update(_, Some(wanted)) => same_sort(wanted, sort),
        Role::Update(_, None) => true,
    }
}

fn is_bits(sort: WrittenSort) -> bool
    ensures { result ≡ fits_role (role_view Fetch) (sort_view sort) }
{
    match sort {
        WrittenSort::Truth | WrittenSort::Word(_) => true,
        WrittenSort::Memory(_, _) => false,
    }
}

fn has_role_sort(role: Role<'_>, sort: Option<WrittenSort>) -> bool
    ensures { result ≡ has_role_sort (role_view role.entry) (option_map sort_view sort) }
{
    match sort {
        Some(sort) => fits_role(role, sort),
        None => false,
    }
}

fn is_memory(sort: WrittenSort) -> bool
    ensures { result ≡ is_memory_sort (sort_view sort) }
{
    match sort {
        WrittenSort::Memory(_, _) => true,
        _ => false,
    }
}

fn is_called(name: &str, memory: Option<&str>) -> bool
    ensures { result ≡ is_memory_called name.now (name_view memory.entry) }
{
    match memory {
        Some(memory) => memory == name,
        None => false,
    }
}

/// Whether it is an update of a memory by another one.
fn copies(role: Role<'_>, memory: Option<&str>) -> bool
    ensures { result ≡ copies_at (role_view role.entry) (name_view memory.entry) }
{
    match role {
        Role::Update(name, Some(sort)) => is_memory(sort) && !is_called(name, memory),
        _ => false,
    }
}

fn fits_sort(sort: WrittenSort, initial: Option<WrittenValue>) -> bool
    ensures { result ≡ fits_sort (sort_view sort) (initial_view initial) }
{
    match (sort, initial) {
        (_, None) => true,
        (WrittenSort::Truth, Some(WrittenValue::Truth(_))) => true,
        (WrittenSort::Word(width), Some(WrittenValue::Number(number))) => fits(width, number),
        _ => false,
    }
}

/// Keeps the place of a rule that is broken, unless an earlier one is kept.
pub(crate) fn keep_first(
    kept: &mut Option<Note>,
    broken: bool,
    place: &Place,
    spot: Spot<'_>,
) -> Result<(), NoMemory>
    ensures { IfOk result (λ _. found_text kept.new ≡ kept_first (found_text kept.old) broken (note_at (way_of place.now) (spot_view spot.entry))) }
{
    if broken && kept.is_none() {
        *kept = Some(place.note(spot)?);
    }
    Ok(())
}

impl Findings {
    pub(crate) fn new(alloc: Global) -> Findings
        ensures { flaws_view result ≡ no_flaws }
    {
        Findings {
            alloc,
            place: Place::top(alloc),
            unknown_name: None,
            bad_width: None,
            bad_sort: None,
            bad_number: None,
            memory_copy: None,
        }
    }

    /// Goes on with the machine of the child of an instruction.
    pub(crate) fn enter(&mut self, instruction: usize) -> Result<(), NoMemory>
        ensures { IfOk result (λ _. flaws_view self.new ≡ entered instruction (flaws_view self.old)) }
    {
        self.place.enter(instruction)?;
        Ok(())
    }

    /// Goes back to the machine around it.
    pub(crate) fn leave(&mut self)
        ensures { flaws_view self.new ≡ left (flaws_view self.old) }
    {
        self.place.leave();
    }

    /// Judges a term, and gives what is known of it.
    #[tactic(auto, unfolding(crate::specs::Flaws::with_term))]
    pub(crate) fn judge_term<'v>(
        &mut self,
        term: &WrittenTerm<'v>,
        role: Role<'v>,
        frames: &[Frame<'v>],
        last: &Frame<'v>,
        spot: Spot<'_>,
    ) -> Result<Seen<'v>, NoMemory>
        ensures flaws { IfOk result (λ _. flaws_view self.new ≡ with_term (look_of frames.now last.now) (role_view role.entry) (spot_view spot.entry) (term_view term.now) (flaws_view self.old)) }
        ensures brief { IfOk result (λ s. brief_view s ≡ brief_at (look_of frames.now last.now) (term_view term.now)) }
    {
        let sort = sort_of(term, frames, last);
        let memory = memory_of(term, frames, last);
        let unknown = is_unknown(term, role, frames, last);
        keep_first(&mut self.unknown_name, unknown, &self.place, spot)?;
        keep_first(&mut self.bad_width, !has_widths(term), &self.place, spot)?;
        keep_first(
            &mut self.bad_sort,
            !has_role_sort(role, sort),
            &self.place,
            spot,
        )?;
        keep_first(
            &mut self.bad_number,
            !has_fitting_constants(term),
            &self.place,
            spot,
        )?;
        keep_first(
            &mut self.memory_copy,
            copies(role, memory),
            &self.place,
            spot,
        )?;
        Ok(Seen { sort, memory })
    }

    /// Judges the sort of a state or an input, and its initial value.
    #[tactic(auto, unfolding(crate::specs::Flaws::with_declared))]
    pub(crate) fn judge_declared(
        &mut self,
        sort: WrittenSort,
        initial: Option<WrittenValue>,
        spot: Spot<'_>,
    ) -> Result<(), NoMemory>
        ensures { IfOk result (λ _. flaws_view self.new ≡ with_declared (spot_view spot.entry) (sort_view sort) (initial_view initial) (flaws_view self.old)) }
    {
        keep_first(&mut self.bad_width, !is_sort(sort), &self.place, spot)?;
        keep_first(
            &mut self.bad_number,
            !fits_sort(sort, initial),
            &self.place,
            spot,
        )?;
        Ok(())
    }
}
