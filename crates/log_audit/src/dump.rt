//! Reading a dump.
ghost use Rattle.std.specs.Prelude.{◌≡◌, IfOk};
ghost use Rattle.script_read.specs.Kept.{IsAccepted};
ghost use Rattle.wire_form.specs.Formats.{Gives};
ghost use Rattle.log_dump.specs.Dumps.{dump_in, known_or, script_block_at};
ghost use Rattle.log_audit.specs.Scripts.{most_of, script_of};

use canton_model::EntryList;
use log_dump::read_log;
use script_read::{Script, ScriptFault, read_script};
use std::alloc::Global;
use wire_form::{Reader, ReaderFault};

/// What a dump spells: a script, and a log.
#[derive(Drop)]
pub struct Dump {
    pub script: Script,
    pub log: EntryList,
}

// The script that a block is, where `here` bytes are left at its front.
#[tactic(auto, unfolding(crate::specs::Scripts::script_of))]
fn script_in_block(alloc: Global, block: &[u8], here: usize) -> Result<Script, ReaderFault>
    ensures read { Gives (λ x. x) result (known_or here (script_of block.now)) }
    ensures accepted { IfOk result IsAccepted }
{
    match read_script(alloc, block) {
        Ok(script) => Ok(script),
        Err(ScriptFault::Memory) => Err(ReaderFault::Memory),
        Err(_) => Err(ReaderFault::Left(here)),
    }
}

#[tactic(auto, unfolding(log_dump::specs::Dumps::script_block_at))]
fn script_block(reader: &mut Reader<'_>, alloc: Global) -> Result<Script, ReaderFault>
    ensures read { Gives (λ x. (x, reader.new)) result (script_block_at script_of reader.old) }
    ensures accepted { IfOk result IsAccepted }
{
    let len = reader.u32()?;
    let here = reader.len();
    let block = reader.bytes(len as usize)?;
    script_in_block(alloc, block, here)
}

fn most_of(script: &Script) -> u8
    requires { IsAccepted script.now }
    ensures { result ≡ most_of script.now }
{
    (script.topology.hosts.len() - 1) as u8
}

/// The script and the log that the bytes are a dump of. An Err is want of memory, or says how many bytes are left where the first field begins that
/// can't be read: a script with a fault is such a field, and so are bytes behind the log.
#[tactic(auto, unfolding(log_dump::specs::Dumps::dump_in))]
pub fn read_dump(alloc: Global, bytes: &[u8]) -> Result<Dump, ReaderFault>
    ensures read { Gives (λ d. (d.script, d.log)) result (dump_in script_of most_of bytes.now) }
    ensures accepted { IfOk result (λ d. IsAccepted d.script) }
{
    let mut reader = Reader::new(bytes);
    let script = script_block(&mut reader, alloc)?;
    let most = most_of(&script);
    let log = read_log(&mut reader, alloc, most)?;
    let left = reader.len();
    if left == 0 {
        Ok(Dump { script, log })
    } else {
        Err(ReaderFault::Left(left))
    }
}
