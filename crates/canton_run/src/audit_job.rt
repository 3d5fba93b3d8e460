//! The job of auditing a dump.
ghost use Rattle.std.specs.Prelude.{◌≡◌, ◌≢◌, ◌<◌, ◌≤◌, List, ℕ, None, IfOk, length, take};
ghost use Rattle.std.proofs.Common.{◌⊎◌};
ghost use Rattle.std.specs.Io.KnownBytes.{Appends, Keeps};
ghost use Rattle.cn_io.specs.Faults.{Rose};
ghost use Rattle.log_dump.specs.declared.limits.TheConstants.{MOST_DUMP_BYTES};
ghost use Rattle.canton_run.specs.Ends.{Audited, HasRunNothing, IsAuditStatus, OffersBytes, RanNothing, TakesAtMost, TellsAudit};

use crate::finish::{Finish, ended};
use crate::writing::write;
use cn_io::{ReadFault, Sink, Source, read_all};
use ledger_terms::Text;
use log_audit::{audit, audit_line};
use log_dump::MOST_DUMP_BYTES;
use std::alloc::{AllocError, Global};

fn line_for(alloc: Global, bytes: &[u8]) -> Result<Text, AllocError>
    ensures { IfOk result (λ line. TellsAudit bytes.now line) }
{
    let answer = audit(alloc, bytes)?;
    let line = audit_line(alloc, answer)?;
    Ok(line)
}

// Audits bytes and writes the line that tells it.
fn audit_bytes<K: Sink>(alloc: Global, bytes: &[u8], sink: &mut K) -> Finish
    ensures status { (result.status ≡ 0) ⊎ ((result.status ≡ 5) ⊎ (result.status ≡ 70)) }
    ensures fault { result.fault ≡ None }
    ensures nothing { HasRunNothing result }
    ensures memory { result.status ≡ 70 → Keeps (K.held sink.old) (K.held sink.new) }
    ensures done { result.status ≡ 0 → (line : List ℕ) × TellsAudit bytes.now line × Appends (K.held sink.old) (K.held sink.new) line }
    ensures cut { result.status ≡ 5 → (line : List ℕ) × TellsAudit bytes.now line × (K.room sink.old < length line)
        × ((n : ℕ) × Appends (K.held sink.old) (K.held sink.new) (take n line)) }
    ensures rose { result.status ≡ 5 → Rose (K.faults sink.old) (K.faults sink.new) }
    ensures count { K.faults sink.old ≤ K.faults sink.new }
{
    match line_for(alloc, bytes) {
        Ok(line) => ended(alloc, write(sink, line.as_str().as_bytes()), None),
        Err(_) => ended(alloc, 70, None),
    }
}

/// Reads a dump from the source and writes the line that says what an audit of it answers to the sink. Nothing is run. The status is 0 where the line was
/// written, whatever it says, 4 or 6 where the source failed or was too long, 5 where a write failed, and 70 after want of memory.
pub fn run_audit<S: Source, K: Sink>(alloc: Global, source: &mut S, sink: &mut K) -> Finish
    ensures status { IsAuditStatus result.status }
    ensures kept { result.fault ≡ None }
    ensures read { result.status ≡ 4 → Rose (S.faults source.old) (S.faults source.new) }
    ensures write { result.status ≡ 5 → Rose (K.faults sink.old) (K.faults sink.new) }
    ensures taken { (bytes : List ℕ) × TakesAtMost MOST_DUMP_BYTES (S.left source.old) (S.left source.new) result.status bytes }
    ensures nothing { result.status ≢ 0 → result.status ≢ 5 → RanNothing (K.held sink.old) (K.held sink.new) result }
    ensures done { result.status ≡ 0 → (line : List ℕ) × Audited (S.left source.old) (S.left source.new) result line
        × Appends (K.held sink.old) (K.held sink.new) line }
    ensures cut { result.status ≡ 5 → (line : List ℕ) × Audited (S.left source.old) (S.left source.new) result line
        × (K.room sink.old < length line) × ((n : ℕ) × Appends (K.held sink.old) (K.held sink.new) (take n line)) }
    ensures count { (S.faults source.old ≤ S.faults source.new) × (K.faults sink.old ≤ K.faults sink.new) }
    ensures complete { OffersBytes (S.left source.old) → ¬ Rose (S.faults source.old) (S.faults source.new)
        → ¬ Rose (K.faults sink.old) (K.faults sink.new) → (result.status ≡ 0) ⊎ (result.status ≡ 70) }
{
    match read_all(alloc, source, MOST_DUMP_BYTES) {
        Ok(bytes) => audit_bytes(alloc, bytes.as_slice(), sink),
        Err(ReadFault::Failed) => ended(alloc, 4, None),
        Err(ReadFault::TooLong) => ended(alloc, 6, None),
        Err(ReadFault::Memory) => ended(alloc, 70, None),
    }
}
