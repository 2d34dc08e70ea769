//! What each driver reads, and which drivers each name has.

ghost use Rattle.v_value.specs.Scope.{scope_at};
ghost use Rattle.v_value.specs.Narrow.{HasNarrowObjects};
ghost use Rattle.v_drivers.specs.Premises.{AreNarrowBlocks};
ghost use Rattle.v_order.specs.Lists.{statements_in};

use crate::bits::{add_driven, add_read};
use crate::driver::Driver;
use std::alloc::{AllocError, Global};
use std::collections::BTreeMap;
use v_flow::span::Span;
use v_value::scope::Scope;

/// Bits of a name that a driver may assign.
#[derive(Clone, Copy)]
pub(crate) struct Writer {
    /// The driver's index.
    pub(crate) driver: usize,
    pub(crate) bits: u128,
    /// The index of the name's writer before this one.
    pub(crate) before: Option<usize>,
}

/// What drivers read, and the writers of each name.
#[derive(Drop)]
pub(crate) struct Edges<'s> {
    /// What the drivers read, one driver after the other.
    pub(crate) reads: Vec<Span<'s>>,
    /// Of each driver, the index behind its last in `reads`.
    pub(crate) ends: Vec<usize>,
    pub(crate) writers: Vec<Writer>,
    /// Of each name, the index of its last writer.
    pub(crate) last: BTreeMap<&'s str, usize>,
}

/// Adds what drivers read, and where it ends.
fn add_reads<'t, 's>(
    drivers: &'t [Driver<'t, 's>],
    scope: &Scope<'_>,
    reads: &mut Vec<Span<'s>>,
    ends: &mut Vec<usize>,
) -> Result<(), AllocError>
    requires objects { HasNarrowObjects (scope_at scope.now) }
    requires narrow { AreNarrowBlocks (scope_at scope.now) (statements_in drivers.now) }
{
    for driver in drivers {
        add_read(*driver, scope, reads)?;
        ends.push(reads.len())?;
    }
    Ok(())
}

/// Adds bits to a writer, if it is one of this driver.
fn add_to(driver: usize, bits: u128, place: usize, writers: &mut Vec<Writer>) -> bool {
    if let Some(writer) = writers.get_mut(place) {
        if writer.driver == driver {
            writer.bits = writer.bits | bits;
            return true;
        }
    }
    false
}

/// Adds the bits of a span that a driver may assign. A name has one writer for each of its drivers.
fn add_writer<'s>(
    driver: usize,
    span: Span<'s>,
    writers: &mut Vec<Writer>,
    last: &mut BTreeMap<&'s str, usize>,
) -> Result<(), AllocError> {
    if span.bits == 0 {
        return Ok(());
    }
    let before = last.get(span.name).copied();
    if let Some(place) = before {
        if add_to(driver, span.bits, place, writers) {
            return Ok(());
        }
    }
    last.insert(span.name, writers.len())?;
    writers.push(Writer {
        driver,
        bits: span.bits,
        before,
    })?;
    Ok(())
}

/// The same of spans.
fn add_writers<'s>(
    driver: usize,
    spans: &[Span<'s>],
    writers: &mut Vec<Writer>,
    last: &mut BTreeMap<&'s str, usize>,
) -> Result<(), AllocError> {
    for span in spans {
        add_writer(driver, *span, writers, last)?;
    }
    Ok(())
}

/// Adds the bits that drivers may assign.
fn add_all<'t, 's>(
    alloc: Global,
    drivers: &'t [Driver<'t, 's>],
    scope: &Scope<'_>,
    writers: &mut Vec<Writer>,
    last: &mut BTreeMap<&'s str, usize>,
) -> Result<(), AllocError>
    requires objects { HasNarrowObjects (scope_at scope.now) }
    requires narrow { AreNarrowBlocks (scope_at scope.now) (statements_in drivers.now) }
{
    for (index, driver) in drivers.iter().enumerate() {
        let mut spans = Vec::new(alloc);
        add_driven(*driver, scope, &mut spans)?;
        add_writers(index, &spans, writers, last)?;
    }
    Ok(())
}

/// What drivers read, and the writers of each name.
pub(crate) fn edges_of<'t, 's>(
    alloc: Global,
    drivers: &'t [Driver<'t, 's>],
    scope: &Scope<'_>,
) -> Result<Edges<'s>, AllocError>
    requires objects { HasNarrowObjects (scope_at scope.now) }
    requires narrow { AreNarrowBlocks (scope_at scope.now) (statements_in drivers.now) }
{
    let mut reads = Vec::new(alloc);
    let mut ends = Vec::new(alloc);
    add_reads(drivers, scope, &mut reads, &mut ends)?;
    let mut writers = Vec::new(alloc);
    let mut last = BTreeMap::new(alloc);
    add_all(alloc, drivers, scope, &mut writers, &mut last)?;
    Ok(Edges {
        reads,
        ends,
        writers,
        last,
    })
}
