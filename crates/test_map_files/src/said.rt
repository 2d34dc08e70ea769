//! What a map file says, as one line.

use map_file::{Heads, Mapped};
use std::alloc::{AllocError, Global};

pub fn said_of(alloc: Global, heads: &Heads) -> Result<String, AllocError> {
    let map = heads.map();
    let mut text = format!(in alloc;
        "top {} clock {} reset {} {} {}",
        heads.top(),
        heads.clock(),
        map.reset.signal,
        map.reset.is_active_high,
        map.reset.cycles
    )?;
    add_texts(&mut text, " assume", &map.assume)?;
    add_texts(&mut text, " invariants", &map.invariants)?;
    text.push_str(" start ")?;
    text.push_str(map.start.as_str())?;
    add_mapped(&mut text, " states", &map.states)?;
    add_mapped(&mut text, " inputs", &map.inputs)?;
    for instruction in &map.instructions {
        let entry = format!(in alloc;
            " instruction {} {} {}",
            instruction.name, instruction.commit, instruction.bound
        )?;
        text.push_str(entry.as_str())?;
    }
    Ok(text)
}

fn add_texts(text: &mut String, head: &str, texts: &[String]) -> Result<(), AllocError> {
    text.push_str(head)?;
    for each in texts {
        text.push_str(" <")?;
        text.push_str(each.as_str())?;
        text.push_str(">")?;
    }
    Ok(())
}

fn add_mapped(text: &mut String, head: &str, entries: &[Mapped]) -> Result<(), AllocError> {
    text.push_str(head)?;
    for entry in entries {
        text.push_str(" ")?;
        text.push_str(entry.name.as_str())?;
        text.push_str("=")?;
        text.push_str(entry.expression.as_str())?;
    }
    Ok(())
}
