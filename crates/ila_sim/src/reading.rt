//! The reading of a script.

ghost use Rattle.std.specs.Prelude.{◌≡◌, false, None, Some, cond, is_none, IfErr, IfOk};
ghost use Rattle.std.specs.Str.{is_utf8};
ghost use Rattle.scripts.specs.Script.{reading_from, script_reading, script_in, without_skipped, lines_of};
ghost use Rattle.ila_sim.specs.Faults.{script_note};
ghost use Rattle.ila_sim.specs.Noted.{IsNoted};
ghost use Rattle.ila_sim.specs.Reading.{IsReading};
ghost use Rattle.ila_sim.specs.Scripts.{script_view, IsScriptWithin, IsAnswered, IsStopOf};
ghost use Rattle.ila_sim.specs.Settables.{settables_view};

use crate::index::Index;
use crate::line::Found;
use crate::missing::all_set;
use crate::place::note_of;
use crate::refusal::{ScriptKind, ScriptRefusal, ScriptStop};
use crate::script::{Script, script_in};
use crate::settables::Names;
use crate::stop::Stop;
use std::alloc::Global;

/// Whether the bytes are UTF-8.
pub(crate) fn is_utf8(bytes: &[u8]) -> bool
    ensures { result ≡ is_utf8 bytes.now }
{
    match std::str::from_utf8(bytes) {
        Ok(_) => true,
        Err(_) => false,
    }
}

/// The script of the bytes, where each line is one of a script: which inputs a line leaves out is not asked.
fn lines_in<'a>(alloc: Global, names: &'a Names, bytes: &'a [u8]) -> Result<Script, Stop>
    ensures script { IsReading (script_view (settables_view names.now)) result (cond (is_utf8 bytes.now) (script_in (settables_view names.now) (without_skipped (lines_of bytes.now))) None) }
    ensures places { IfOk result (IsScriptWithin (settables_view names.now)) }
{
    if !is_utf8(bytes) {
        return Err(Stop::Refused);
    }
    let states = Index::new(alloc, &names.states)?;
    let inputs = Index::new(alloc, &names.inputs)?;
    let found = Found { states, inputs };
    let script = script_in(alloc, &found, bytes)?;
    Ok(script)
}

/// A refusal with the note that leads to its place.
fn refused<'a>(alloc: Global, names: &'a Names, bytes: &'a [u8], kind: ScriptKind) -> ScriptStop
    requires { is_none (script_note kind (settables_view names.now) bytes.now) ≡ false }
    ensures kind { IsStopOf kind result }
    ensures note { IsNoted (settables_view names.now) bytes.now result }
{
    match note_of(alloc, bytes, names, kind) {
        Ok(Some(note)) => ScriptStop::Refused(ScriptRefusal { kind, note }),
        Ok(None) => unreachable!(),
        Err(_) => ScriptStop::NoMemory,
    }
}

/// The script, where each of its input lines sets every input.
fn if_complete<'a>(
    alloc: Global,
    names: &'a Names,
    bytes: &'a [u8],
    script: Script,
) -> Result<Script, ScriptStop>
    requires within { IsScriptWithin (settables_view names.now) script }
    requires read { script_reading (settables_view names.now) bytes.now ≡ reading_from (settables_view names.now) (Some (script_view (settables_view names.now) script)) }
    ensures answer { IsAnswered (settables_view names.now) result (reading_from (settables_view names.now) (Some (script_view (settables_view names.now) script))) }
    ensures note { IfErr result (IsNoted (settables_view names.now) bytes.now) }
    ensures right { IfOk result (IsScriptWithin (settables_view names.now)) }
{
    match all_set(alloc, &names.inputs, &script.inputs) {
        Err(_) => Err(ScriptStop::NoMemory),
        Ok(true) => Ok(script),
        Ok(false) => Err(refused(alloc, names, bytes, ScriptKind::MissingInput)),
    }
}

/// Reads a script. A bad line is answered before an input that is left out; the note of a refusal leads to the first line that is
/// bad, or that leaves out an input. What a script sets are words of the names, to values that fit.
pub fn read_script<'a>(
    alloc: Global,
    bytes: &'a [u8],
    names: &'a Names,
) -> Result<Script, ScriptStop>
    ensures answer { IsAnswered (settables_view names.now) result (script_reading (settables_view names.now) bytes.now) }
    ensures note { IfErr result (IsNoted (settables_view names.now) bytes.now) }
    ensures right { IfOk result (IsScriptWithin (settables_view names.now)) }
{
    match lines_in(alloc, names, bytes) {
        Err(Stop::Memory) => Err(ScriptStop::NoMemory),
        Err(Stop::Refused) => Err(refused(alloc, names, bytes, ScriptKind::BadLine)),
        Ok(script) => {
            let answer = if_complete(alloc, names, bytes, script)?;
            Ok(answer)
        }
    }
}

impl ScriptKind {
    ghost use Rattle.std.specs.Prelude.{◌≡◌};
    ghost use Rattle.ila_sim.specs.Scripts.{name_of_kind};

    /// The name that is printed.
    pub fn name(self) -> &'static str
        ensures { result.now ≡ name_of_kind self }
    {
        match self {
            ScriptKind::BadLine => "S1 BadLine",
            ScriptKind::MissingInput => "S2 MissingInput",
        }
    }
}
