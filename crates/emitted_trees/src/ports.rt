//! Ranges and ports.

ghost use Rattle.std.specs.Prelude.{◌≡◌, ◌≤◌, ◌-◌, ◌^◌, ◌++◌, ◌∷◌, [], IfOk, IsTrue, map};
ghost use Rattle.wb_values.specs.Value.{truth};
ghost use Rattle.model_meaning.specs.Term.{is_sort};
ghost use Rattle.verilog_trees.specs.Syntax as pure;
ghost use Rattle.wb_terms.specs.Sort.{as_sort};
ghost use Rattle.term_expressions.specs.Expressions.{plain};
ghost use Rattle.v_syntax.specs.Source.{range_of, optional_range_of, direction_of, port_of};
ghost use Rattle.ila_model.specs.Model.{model_of};
ghost use Rattle.emitted_designs.specs.Names.{clock_name, reset_name, go_name};
ghost use Rattle.emitted_modules.specs.Rtl as rtl;

use crate::NoMemory;
use crate::expressions::plain;
use crate::lists::with;
use ila_model::IlaModel;
use std::alloc::Global;
use v_syntax::module::{Direction, PortDeclaration, Range};
use wb_bits::mask;
use wb_terms::Sort;

/// `[w-1:0]`
fn range_of_bits<'n>(alloc: Global, width: u32) -> Result<Box<Range<'n>>, NoMemory>
    ensures { IfOk result (λ b. range_of b.value ≡ rtl.range_of_bits width) }
{
    let range = Range {
        left: plain(u128::from(width.saturating_sub(1))),
        right: plain(0),
    };
    Ok(Box::new(alloc, range)?)
}

/// The range of a net of a sort, or of a memory's words. A truth value is a scalar.
pub(crate) fn range_of_sort<'n>(
    alloc: Global,
    sort: Sort,
) -> Result<Option<Box<Range<'n>>>, NoMemory>
    ensures { IfOk result (λ r. optional_range_of r ≡ rtl.range_of_sort (as_sort sort)) }
{
    match sort {
        Sort::Truth => Ok(None),
        Sort::Word(width) => {
            let range = range_of_bits(alloc, width)?;
            Ok(Some(range))
        }
        Sort::Memory(_, width) => {
            let range = range_of_bits(alloc, width)?;
            Ok(Some(range))
        }
    }
}

/// `[0:2^a-1]`
fn addresses<'n>(alloc: Global, address_width: u32) -> Result<Box<Range<'n>>, NoMemory>
    requires { address_width ≤ 128 }
    ensures { IfOk result (λ b. range_of b.value ≡ record { left = plain 0; right = plain (2 ^ address_width - 1) }) }
{
    let range = Range {
        left: plain(0),
        right: plain(mask(address_width)),
    };
    Ok(Box::new(alloc, range)?)
}

/// The addresses of a memory.
pub(crate) fn addresses_of_sort<'n>(
    alloc: Global,
    sort: Sort,
) -> Result<Option<Box<Range<'n>>>, NoMemory>
    requires { IsTrue (is_sort (as_sort sort)) }
    ensures { IfOk result (λ r. optional_range_of r ≡ rtl.addresses_of_sort (as_sort sort)) }
{
    match sort {
        Sort::Truth => Ok(None),
        Sort::Word(_) => Ok(None),
        Sort::Memory(address_width, _) => {
            let range = addresses(alloc, address_width)?;
            Ok(Some(range))
        }
    }
}

/// A port of a sort.
fn port<'n>(
    alloc: Global,
    direction: Direction,
    name: &'n str,
    sort: Sort,
) -> Result<PortDeclaration<'n>, NoMemory>
    ensures { IfOk result (λ p. port_of p ≡ rtl.port_of (direction_of direction) name.now (as_sort sort)) }
{
    let range = range_of_sort(alloc, sort)?;
    let mut names = Vec::new(alloc);
    names.push(name)?;
    Ok(PortDeclaration {
        direction,
        kind: None,
        signed: false,
        range,
        names,
    })
}

/// Ports with one more behind them.
fn with_port<'n>(
    alloc: Global,
    ports: Vec<PortDeclaration<'n>>,
    direction: Direction,
    name: &'n str,
    sort: Sort,
) -> Result<Vec<PortDeclaration<'n>>, NoMemory>
    ensures { IfOk result (λ v. map port_of v.items ≡ map port_of ports.entry.items ++ rtl.port_of (direction_of direction) name.now (as_sort sort) ∷ []) }
{
    let port = port(alloc, direction, name, sort)?;
    let all = with(ports, port)?;
    Ok(all)
}

/// The ports before those of the model's inputs.
fn first_ports<'n>(alloc: Global) -> Result<Vec<PortDeclaration<'n>>, NoMemory>
    ensures { IfOk result (λ v. map port_of v.items ≡ rtl.port_of pure.input clock_name truth ∷ rtl.port_of pure.input reset_name truth ∷ rtl.port_of pure.input go_name truth ∷ []) }
{
    let ports = Vec::new(alloc);
    let ports = with_port(alloc, ports, Direction::Input, "wb_clk", Sort::Truth)?;
    let ports = with_port(alloc, ports, Direction::Input, "wb_rst", Sort::Truth)?;
    let ports = with_port(alloc, ports, Direction::Input, "wb_go", Sort::Truth)?;
    Ok(ports)
}

/// Ports with those of the model's inputs behind them.
fn with_inputs<'n>(
    alloc: Global,
    ports: Vec<PortDeclaration<'n>>,
    model: &'n IlaModel,
) -> Result<Vec<PortDeclaration<'n>>, NoMemory>
    ensures { IfOk result (λ v. map port_of v.items ≡ map port_of ports.entry.items ++ map rtl.input_port (model_of model.now).inputs) }
{
    let mut all = ports;
    for place in 0..model.input_count() {
        let name = model.input_name(place);
        let sort = model.input_sort(place);
        all = with_port(alloc, all, Direction::Input, name, sort)?;
    }
    Ok(all)
}

/// The ports of the model's emitted design.
pub(crate) fn port_list<'n>(
    alloc: Global,
    model: &'n IlaModel,
) -> Result<Vec<PortDeclaration<'n>>, NoMemory>
    ensures { IfOk result (λ v. map port_of v.items ≡ rtl.port_list (model_of model.now).inputs) }
{
    let ports = first_ports(alloc)?;
    let ports = with_inputs(alloc, ports, model)?;
    let ports = with_port(alloc, ports, Direction::Output, "wb_start", Sort::Truth)?;
    let ports = with_port(alloc, ports, Direction::Output, "wb_commit", Sort::Truth)?;
    Ok(ports)
}
