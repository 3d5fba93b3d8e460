//! How a participant reads to the end of the log.
ghost use Rattle.std.specs.Prelude.{◌≡◌, OnOk};
ghost use Rattle.world_play.specs.Reading.{IsReader, Reads, has_read};

use node_core::Node;
use seq_log::Sequencer;
use std::alloc::AllocError;

/// The participant reads every entry of the log that it hasn't read. After want of memory it has read some of them.
pub fn read_to_end(node: &mut Node<'_>, sequencer: &mut Sequencer<'_>) -> Result<(), AllocError>
    requires { Reads node.old sequencer.old.list }
    ensures same { sequencer.new ≡ sequencer.old }
    ensures some { IsReader node.old sequencer.old.list node.new }
    ensures ok { OnOk result (node.new ≡ has_read node.old sequencer.old.list) }
{
    'entries: while let Some(slip) = sequencer.entry(node.cursor()) {
        node.read(&slip)?;
    }
    Ok(())
}
