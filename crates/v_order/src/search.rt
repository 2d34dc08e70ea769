//! A depth-first search from drivers to those that they read from.

ghost use Rattle.v_value.specs.Scope.{scope_at};
ghost use Rattle.v_value.specs.Narrow.{HasNarrowObjects};
ghost use Rattle.v_drivers.specs.Premises.{AreNarrowBlocks};
ghost use Rattle.v_order.specs.Lists.{statements_in};

use crate::driver::Driver;
use crate::edges::{Edges, edges_of};
use std::alloc::{AllocError, Global};
use v_value::scope::Scope;

/// A driver that was entered, and how far the search has come in what it reads.
#[derive(Clone, Copy)]
struct Frame {
    driver: usize,
    /// The index of what it reads next.
    read: usize,
    /// The index behind the last that it reads.
    end: usize,
    /// The bits that it read last.
    bits: u128,
    /// The index of a writer of these that the search has still to come to.
    writer: Option<usize>,
}

/// Where the search goes from a writer.
#[derive(Clone, Copy)]
struct Step {
    frame: Frame,
    /// The driver that it meets.
    met: Option<usize>,
}

/// The index behind the last that a driver reads.
fn end_of(edges: &Edges<'_>, driver: usize) -> usize {
    edges.ends.get(driver).copied().unwrap_or(0)
}

/// A driver in which nothing was read yet.
fn entered(edges: &Edges<'_>, driver: usize) -> Frame {
    let read = match driver.checked_sub(1) {
        Some(before) => end_of(edges, before),
        None => 0,
    };
    Frame {
        driver,
        read,
        end: end_of(edges, driver),
        bits: 0,
        writer: None,
    }
}

/// Passes a writer, and meets its driver where that may assign one of the bits that were read.
fn pass_writer(edges: &Edges<'_>, frame: Frame, place: usize) -> Step {
    match edges.writers.get(place) {
        Some(writer) => Step {
            frame: Frame {
                driver: frame.driver,
                read: frame.read,
                end: frame.end,
                bits: frame.bits,
                writer: writer.before,
            },
            met: if writer.bits & frame.bits == 0 {
                None
            } else {
                Some(writer.driver)
            },
        },
        None => Step { frame, met: None },
    }
}

/// Comes to what a driver reads next.
fn pass_read(edges: &Edges<'_>, frame: Frame) -> Frame {
    match edges.reads.get(frame.read) {
        Some(span) => Frame {
            driver: frame.driver,
            read: frame.read.saturating_add(1),
            end: frame.end,
            bits: span.bits,
            writer: edges.last.get(span.name).copied(),
        },
        None => Frame {
            driver: frame.driver,
            read: frame.end,
            end: frame.end,
            bits: 0,
            writer: None,
        },
    }
}

/// Marks a driver. Answers whether it was not marked before.
fn mark(driver: usize, marked: &mut Vec<bool>) -> bool {
    if let Some(mark) = marked.get_mut(driver) {
        let is_new = !*mark;
        *mark = true;
        return is_new;
    }
    false
}

/// Enters a driver, if it was not entered before.
fn enter(
    edges: &Edges<'_>,
    driver: usize,
    marked: &mut Vec<bool>,
    frames: &mut Vec<Frame>,
) -> Result<(), AllocError> {
    if mark(driver, marked) {
        frames.push(entered(edges, driver))?;
    }
    Ok(())
}

/// Goes on from a driver: to the next writer, to what it reads next, or out of it.
fn go_on(
    edges: &Edges<'_>,
    frame: Frame,
    marked: &mut Vec<bool>,
    frames: &mut Vec<Frame>,
    order: &mut Vec<usize>,
) -> Result<(), AllocError> {
    if let Some(place) = frame.writer {
        let step = pass_writer(edges, frame, place);
        frames.push(step.frame)?;
        if let Some(driver) = step.met {
            enter(edges, driver, marked, frames)?;
        }
        return Ok(());
    }
    if frame.read < frame.end {
        frames.push(pass_read(edges, frame))?;
        return Ok(());
    }
    order.push(frame.driver)?;
    Ok(())
}

/// Adds a driver and all that it rests on to the order, each behind those that it reads from but for loops.
fn add_from(
    edges: &Edges<'_>,
    driver: usize,
    marked: &mut Vec<bool>,
    frames: &mut Vec<Frame>,
    order: &mut Vec<usize>,
) -> Result<(), AllocError> {
    enter(edges, driver, marked, frames)?;
    for _ in 0..u64::MAX {
        match frames.pop() {
            Some(frame) => go_on(edges, frame, marked, frames, order)?,
            None => {
                return Ok(());
            }
        }
    }
    Ok(())
}

/// An order of drivers, as their indexes: each stands behind those that may assign what it reads, but for loops. Nothing is proved of it.
pub fn order_of<'t>(
    alloc: Global,
    drivers: &'t [Driver<'t, '_>],
    scope: &Scope<'_>,
) -> Result<Vec<usize>, AllocError>
    requires objects { HasNarrowObjects (scope_at scope.now) }
    requires narrow { AreNarrowBlocks (scope_at scope.now) (statements_in drivers.now) }
{
    let edges = edges_of(alloc, drivers, scope)?;
    let mut marked = vec![in alloc; false; drivers.len()]?;
    let mut frames = Vec::new(alloc);
    let mut order = Vec::new(alloc);
    for driver in 0..drivers.len() {
        add_from(&edges, driver, &mut marked, &mut frames, &mut order)?;
    }
    Ok(order)
}
