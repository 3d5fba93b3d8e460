//! Whole texts in and out.
ghost use Rattle.std.specs.Prelude.{◌≡◌, ℕ, ◌≤◌, ◌⊎◌, take, length, IfOk, IfErr, IsOk, IsErr, OnOk, OnErr, IsErrOf};
ghost use Rattle.std.specs.Io.KnownBytes.{Appends, Consumes, IsAtEnd};
ghost use Rattle.cn_io.specs.Faults.{Rose, counted};
ghost use Rattle.cn_io.specs.Sink.{OffersAll};
ghost use Rattle.cn_io.specs.Whole.{StoppedAfter};

use crate::failed::Failed;
use crate::sink::Sink;
use crate::source::Source;
use ledger_terms::Bytes;
use std::alloc::Global;
use thiserror::Error;

/// Why a text was not read.
#[derive(Clone, Copy, Debug, PartialEq, Eq, Error)]
pub enum ReadFault {
    /// The source failed.
    #[error("the source failed")]
    Failed,
    /// The source gave more bytes than the limit.
    #[error("too long")]
    TooLong,
    /// No memory was found for the bytes.
    #[error("out of memory")]
    Memory,
}

/// How many bytes are asked for at once.
const PIECE: usize = 4096;

/// Reads all that is left of the source, in memory of `alloc`, where that is at most `limit` bytes. Of more it takes no more than one byte past the
/// limit, which is TooLong. It stops at the first call that fails, which is Failed; want of memory is Memory.
pub fn read_all<S: Source>(alloc: Global, source: &mut S, limit: usize) -> Result<Bytes, ReadFault>
    ensures whole { IfOk result (λ bytes. Consumes (S.left source.old) (S.left source.new) bytes
        × IsAtEnd (S.left source.new) × (length bytes ≤ limit)) }
    ensures failed { IsErrOf result ReadFault.Failed → Rose (S.faults source.old) (S.faults source.new) }
    ensures once { IsErrOf result ReadFault.Failed → S.faults source.new ≡ counted (S.faults source.old) }
    ensures stopped { IfErr result (λ fault.
        StoppedAfter limit (S.left source.old) (S.left source.new) (fault ≡ ReadFault.TooLong)) }
    ensures count { S.faults source.old ≤ S.faults source.new }
    ensures kept { IfOk result (λ _. S.faults source.new ≡ S.faults source.old) }
    ensures kept_at_fault { IfErr result (λ fault. (fault ≡ ReadFault.Failed) ⊎ (S.faults source.new ≡ S.faults source.old)) }
{
    let mut bytes = Bytes::new(alloc);
    let mut piece = [0u8; PIECE];
    'turns: loop {
        let left = limit - bytes.len();
        // One byte more than is left tells whether the source ends there.
        let room = left.min(PIECE - 1) + 1;
        match source.take(&mut piece[..room]) {
            Ok(0) => return Ok(bytes),
            Ok(count) => {
                // Before memory is asked for, so that want of it never hides this fault.
                if count > left {
                    return Err(ReadFault::TooLong);
                }
                if bytes.extend(&piece[..count]).is_err() {
                    return Err(ReadFault::Memory);
                }
            }
            Err(_) => return Err(ReadFault::Failed),
        }
    }
}

/// Writes all bytes to the sink. Each `put` is offered all that remain, and the first that fails ends it with Failed; then the sink has taken the first
/// bytes, perhaps none.
pub fn write_all<K: Sink>(sink: &mut K, bytes: &[u8]) -> Result<(), Failed>
    ensures whole { OnOk result (Appends (K.held sink.old) (K.held sink.new) bytes.now) }
    ensures part { OnErr result (Rose (K.faults sink.old) (K.faults sink.new)
        × ((n : ℕ) × Appends (K.held sink.old) (K.held sink.new) (take n bytes.now))) }
    ensures offers { OffersAll K.may_put sink.old sink.new bytes.now result }
    ensures once { IsErr result → K.faults sink.new ≡ counted (K.faults sink.old) }
    ensures sure { length bytes.now ≤ K.room sink.old → IsOk result × (K.faults sink.new ≡ K.faults sink.old) }
    ensures count { K.faults sink.old ≤ K.faults sink.new }
    ensures kept { OnOk result (K.faults sink.new ≡ K.faults sink.old) }
{
    let mut at = 0;
    'pieces: while at < bytes.len() {
        at += sink.put(&bytes[at..])?;
    }
    Ok(())
}
