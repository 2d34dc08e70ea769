//! Rows of stores in a memory of zeros, with its words other than 0 afterwards. Each memory is also read as a list, built again from it and
//! copied into another pool. Prints each row that comes out otherwise, and how many rows there are.
#![tactic(auto)]

ghost use Rattle.std.specs.Prelude.{◌≡◌, ◌≤◌, ◌^◌, IfOk, IfSome};
ghost use Rattle.sparse_memories.specs.Memories.{IsMemory};

use sparse_memories::{Copies, Memory, Pool, SetWord};
use std::alloc::{AllocError, Global};
use std::io;
use std::io::Read;

fn main(rt: HostRuntime) -> io::Result<()> {
    let alloc = rt.alloc();
    let mut table = String::new(alloc);
    rt.stdin().read_to_string(&mut table)?;
    let mut rows: u64 = 0;
    let mut differing: u64 = 0;
    for line in table.as_str().lines() {
        let Some((row, wanted)) = line.split_once(" => ") else {
            continue;
        };
        let found = answer(alloc, row)?;
        rows = rows.saturating_add(1);
        if found.as_str() != wanted {
            differing = differing.saturating_add(1);
            println!(rt; "{row}\n  {found}")?;
        }
    }
    println!(rt; "{rows} rows, {differing} differ")
}

/// The words other than 0 after the stores of a row, or what is wrong with it.
fn answer(alloc: Global, row: &str) -> Result<String, AllocError> {
    let (depth, stores) = row.split_once(": ").unwrap_or((row, ""));
    let depth = depth.parse::<u32>().unwrap_or(99);
    if depth > 16 {
        return String::from_str(alloc, "no depth");
    }
    let mut pool = Pool::new(alloc)?;
    match stored(&mut pool, depth, stores)? {
        Some(memory) => checked(alloc, &mut pool, depth, memory),
        None => String::from_str(alloc, "no store"),
    }
}

/// How many words a memory has.
fn word_count(depth: u32) -> u64
    requires { depth ≤ 16 }
    ensures { result ≡ 2 ^ depth }
{
    1u64 << depth
}

/// The memory of zeros after these stores, or none where one of them is none.
fn stored(pool: &mut Pool, depth: u32, stores: &str) -> Result<Option<Memory>, AllocError>
    requires { depth ≤ 16 }
    ensures { IfOk result (λ found. IfSome found (λ m. IsMemory pool.new depth m)) }
{
    let count = word_count(depth);
    let mut memory = pool.zeros();
    for store in stores.split_whitespace() {
        let (address, word) = store.split_once("=").unwrap_or((store, ""));
        let address = address.parse::<u64>().unwrap_or(u64::MAX);
        if address >= count {
            return Ok(None);
        }
        pool.reserve(17)?;
        memory = pool.store(depth, memory, address, word.parse::<u128>().unwrap_or(0));
    }
    Ok(Some(memory))
}

/// The words other than 0 of the memory, read from a copy of one that was built from its list of words.
fn checked(alloc: Global, pool: &mut Pool, depth: u32, memory: Memory) -> Result<String, AllocError>
    requires depth { depth ≤ 16 }
    requires memory { IsMemory pool.old depth memory }
{
    let words = pool.words(alloc, depth, memory)?;
    let built = pool.from_words(depth, &words)?;
    if !pool.is_same(depth, memory, built) {
        return String::from_str(alloc, "other words");
    }
    let mut other = Pool::new(alloc)?;
    let mut copies = Copies::new(alloc, pool)?;
    let copy = other.copy_of(pool, &mut copies, depth, built)?;
    let found = other.set_words(alloc, depth, copy)?;
    pool.clear();
    shown(alloc, &found)
}

/// Words with their addresses, as the rows have them.
fn shown(alloc: Global, found: &[SetWord]) -> Result<String, AllocError> {
    let mut text = String::new(alloc);
    for each in found {
        if !text.is_empty() {
            text.push_str(" ")?;
        }
        let word = format!(in alloc; "{}={}", each.address, each.word)?;
        text.push_str(word.as_str())?;
    }
    Ok(text)
}
