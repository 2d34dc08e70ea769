//! What a design does under a script, from the bytes of Verilog files and of the script.

ghost use Rattle.std.specs.Prelude.{◌≡◌, [], IfOk, Ok, map, string_bytes};
ghost use Rattle.v_syntax.specs.Source.{source_of};
ghost use Rattle.v_token.specs.View.{tokens_of};
ghost use Rattle.verilog_text.specs.Text.{tokens_in};
ghost use Rattle.verilog_text.specs.Grammar.{IsTreeOf};
ghost use Rattle.v_judged.specs.Refusal.{kind_of};
ghost use Rattle.check_cases.specs.Kinds.{kind_name};
ghost use Rattle.wb_top.specs.Texts.{IsRefusalBy};
ghost use Rattle.wb_top.specs.Showing.{told_of};
ghost use Rattle.wb_top.specs.SimulatedRtl.{IsSimulatedDesign, IsRtlSimulated};

use crate::answer::Outcome;
use crate::places::note_in_files;
use crate::status::Status;
use crate::stop::NoMemory;
use crate::texts::{refusal_of_design, refusal_of_script, refusal_of_text, refusal_of_tree};
use crate::verb::Top;
use designs_of_texts::laws::trees_are_of_texts;
use rtl_simulation::RtlSimulation;
use std::alloc::{AllocError, Global};
use v_judged::DesignKind;
use v_lex::{LexStop, Note, note_behind, tokens};
use v_parse::{ParseStop, parse};
use v_syntax::module::Tree;
use v_token::token::Token;

/// The answer to a simulation of the design of some Verilog files, whose names these are, under a script.
pub(crate) fn simulated_rtl(
    alloc: Global,
    names: &[String],
    design: &Top,
    script: &[u8],
    designs: &[Vec<u8>],
) -> Result<Outcome, NoMemory>
    ensures told { IfOk result (λ o. IsRtlSimulated (string_bytes design.now.top) (string_bytes design.now.clock) script.now (map (λ d. d.items) designs.now) o.status o.text.items) }
    ensures nothing { IfOk result (λ o. (told_of o).spent ≡ []) }
{
    match tokens(alloc, designs) {
        Ok(tokens) => of_tokens(alloc, names, design, script, designs, tokens),
        Err(LexStop::Refused(broken)) => {
            let text = refusal_of_text(alloc, names, &broken)?;
            Ok(Outcome::plain(Status::Refused, text))
        }
        Err(LexStop::NoMemory) => Err(AllocError),
    }
}

/// The same of Verilog files that have these tokens.
fn of_tokens(
    alloc: Global,
    names: &[String],
    design: &Top,
    script: &[u8],
    designs: &[Vec<u8>],
    tokens: Vec<Token<'_>>,
) -> Result<Outcome, NoMemory>
    requires { tokens_in (map (λ d. d.items) designs.now) ≡ Ok (tokens_of tokens.items) }
    ensures told { IfOk result (λ o. IsRtlSimulated (string_bytes design.now.top) (string_bytes design.now.clock) script.now (map (λ d. d.items) designs.now) o.status o.text.items) }
    ensures nothing { IfOk result (λ o. (told_of o).spent ≡ []) }
{
    match parse(alloc, &tokens) {
        Ok(tree) => {
            // The tree holds slices of the files. A note on a place reads the tokens once more.
            drop(tokens);
            of_tree(tree, alloc, names, design, script, designs)
        }
        Err(ParseStop::Refused(left)) => {
            let count = tokens.len().saturating_sub(left);
            match note_behind(alloc, designs, &tokens, count) {
                Some(note) => {
                    let text = refusal_of_tree(alloc, names, &note)?;
                    Ok(Outcome::plain(Status::Refused, text))
                }
                None => Err(AllocError),
            }
        }
        Err(ParseStop::NoMemory) => Err(AllocError),
    }
}

/// The answer to a simulation of the design that is a module of the tree of some Verilog files.
fn of_tree(
    tree: Tree<'_>,
    alloc: Global,
    names: &[String],
    design: &Top,
    script: &[u8],
    designs: &[Vec<u8>],
) -> Result<Outcome, NoMemory>
    requires { IsTreeOf (map (λ d. d.items) designs.now) (source_of tree) }
    ensures told { IfOk result (λ o. IsSimulatedDesign (record { source = source_of tree.entry; top = string_bytes design.now.top; clock = string_bytes design.now.clock }) script.now o.status o.text.items) }
    ensures nothing { IfOk result (λ o. (told_of o).spent ≡ []) }
{
    trees_are_of_texts();
    match rtl_simulation::simulated_rtl(&tree, &design.top, &design.clock, script, alloc)? {
        RtlSimulation::Text(text) => Ok(Outcome::plain(Status::Done, text)),
        RtlSimulation::Design(kind) => {
            drop(tree);
            let note = note_in_files(alloc, &design.top, &design.clock, designs, kind)?;
            refused_design(alloc, names, kind, &note)
        }
        RtlSimulation::Script(refusal) => {
            let text = refusal_of_script(alloc, &refusal)?;
            Ok(Outcome::plain(Status::Refused, text))
        }
    }
}

/// The answer where a design is refused by a kind, with the note on its place, where there is one.
fn refused_design(
    alloc: Global,
    names: &[String],
    kind: DesignKind,
    note: &Option<Note>,
) -> Result<Outcome, NoMemory>
    ensures status { IfOk result (λ o. o.status ≡ Status.Refused) }
    ensures text { IfOk result (λ o. IsRefusalBy (kind_name (kind_of kind)) o.text.items) }
    ensures nothing { IfOk result (λ o. (told_of o).spent ≡ []) }
{
    let text = refusal_of_design(alloc, names, kind, note)?;
    Ok(Outcome::plain(Status::Refused, text))
}
