//! Graphs of things that have numbers: modules and their instances, drivers and the names between them.

use std::alloc::{AllocError, Global};

/// An edge between two numbers.
#[derive(Clone, Copy)]
pub(crate) struct Edge {
    pub(crate) from: usize,
    pub(crate) to: usize,
}

/// The edge the other way round.
pub(crate) fn turned(edge: Edge) -> Edge {
    Edge {
        from: edge.to,
        to: edge.from,
    }
}

/// Whether a number is among these.
pub(crate) fn is_inside(inside: &[bool], number: usize) -> bool {
    inside.get(number).copied().unwrap_or(false)
}

/// So many times the same answer.
pub(crate) fn all_with(alloc: Global, count: usize, answer: bool) -> Result<Vec<bool>, AllocError> {
    let mut list = Vec::new(alloc);
    for _ in 0..count {
        list.push(answer)?;
    }
    Ok(list)
}

/// For each of so many numbers those to which an edge leads from it.
pub(crate) fn lists_of(
    alloc: Global,
    edges: &[Edge],
    count: usize,
) -> Result<Vec<Vec<usize>>, AllocError> {
    let mut lists: Vec<Vec<usize>> = Vec::new(alloc);
    for _ in 0..count {
        lists.push(Vec::new(alloc))?;
    }
    for edge in edges {
        if let Some(list) = lists.get_mut(edge.from) {
            list.push(edge.to)?;
        }
    }
    Ok(lists)
}

/// Takes in the numbers of a list that are not inside yet, and puts them on the stack.
fn enter(list: &[usize], inside: &mut Vec<bool>, open: &mut Vec<usize>) -> Result<(), AllocError> {
    for number in list {
        if let Some(place) = inside.get_mut(*number) {
            if !*place {
                *place = true;
                open.push(*number)?;
            }
        }
    }
    Ok(())
}

/// Takes in all that is reached by these lists from the numbers on the stack, which are so many at most.
fn reach_all(
    lists: &[Vec<usize>],
    inside: &mut Vec<bool>,
    open: &mut Vec<usize>,
) -> Result<(), AllocError> {
    for _ in 0..lists.len() {
        let Some(number) = open.pop() else {
            return Ok(());
        };
        if let Some(list) = lists.get(number) {
            enter(list, inside, open)?;
        }
    }
    Ok(())
}

/// Which of so many numbers are reached from this one.
pub(crate) fn reached(
    alloc: Global,
    edges: &[Edge],
    count: usize,
    start: usize,
) -> Result<Vec<bool>, AllocError> {
    let lists = lists_of(alloc, edges, count)?;
    let mut inside = all_with(alloc, count, false)?;
    let mut open = Vec::new(alloc);
    enter(&[start], &mut inside, &mut open)?;
    reach_all(&lists, &mut inside, &mut open)?;
    Ok(inside)
}

/// How many edges between these lead to each of them.
fn counts_of(alloc: Global, edges: &[Edge], inside: &[bool]) -> Result<Vec<usize>, AllocError> {
    let mut counts: Vec<usize> = Vec::new(alloc);
    for _ in inside {
        counts.push(0)?;
    }
    for edge in edges {
        if is_inside(inside, edge.from) && is_inside(inside, edge.to) {
            if let Some(count) = counts.get_mut(edge.to) {
                *count = count.saturating_add(1);
            }
        }
    }
    Ok(counts)
}

/// Takes away one edge to each of these. Those to which none leads any more go to the stack.
fn take_edges(
    list: &[usize],
    counts: &mut Vec<usize>,
    ended: &mut Vec<usize>,
) -> Result<(), AllocError> {
    for number in list {
        if let Some(count) = counts.get_mut(*number) {
            if *count == 1 {
                ended.push(*number)?;
            }
            *count = count.saturating_sub(1);
        }
    }
    Ok(())
}

/// Leaves of these numbers those to which edges between them lead that begin nowhere.
pub(crate) fn trim(
    alloc: Global,
    edges: &[Edge],
    inside: &mut Vec<bool>,
) -> Result<(), AllocError> {
    let lists = lists_of(alloc, edges, inside.len())?;
    let mut counts = counts_of(alloc, edges, inside)?;
    let mut ended = Vec::new(alloc);
    for (number, count) in counts.iter().enumerate() {
        if *count == 0 && is_inside(inside, number) {
            ended.push(number)?;
        }
    }
    for _ in 0..inside.len() {
        let Some(number) = ended.pop() else {
            return Ok(());
        };
        if let Some(place) = inside.get_mut(number) {
            *place = false;
        }
        if let Some(list) = lists.get(number) {
            take_edges(list, &mut counts, &mut ended)?;
        }
    }
    Ok(())
}
