//! The strings that are hashed for a tree of commitments, alone.
use crate::answer::Answer;
use hash_id::contract_id_of_bytes;
use ledger_terms::Hash;
use std::alloc::{AllocError, Global};

/// How many nodes stand above a bucket.
const LEVELS: u8 = 8;

/// How many hashes a change of one id takes.
const OF_CHANGE: u64 = 9;

/// More bytes than a bucket's ids have.
const MOST: usize = 8192;

/// Makes as many hashes as the change of one id takes in a tree of commitments, of strings as long: one of a bucket with `ids` ids, and one of two
/// hashes at each level.
fn hash_change(last: Hash, zeros: &[u8], ids: usize) -> Hash {
    // the tag and the salt before it are 33 bytes, a bucket's tag and count are 5
    let length = ids.saturating_mul(32).saturating_sub(28);
    let mut hash = contract_id_of_bytes(&last, zeros.get(..length).unwrap_or(zeros));
    for _ in 0..LEVELS {
        hash = contract_id_of_bytes(&hash, last.as_bytes());
    }
    hash
}

/// Makes the hashes of so many ids that are added, each the hash of the one before.
fn hash_adds(counts: &mut [usize; 256], zeros: &[u8], count: u64, first: Hash) -> Hash {
    let mut id = Hash([0; 32]);
    let mut last = first;
    for _ in 0..count {
        id = contract_id_of_bytes(&id, &[]);
        let at = id.0[0] as usize;
        counts[at] = counts[at].saturating_add(1);
        last = hash_change(last, zeros, counts[at]);
    }
    last
}

/// Makes the hashes of the same ids, taken out again.
fn hash_removes(counts: &mut [usize; 256], zeros: &[u8], count: u64, first: Hash) -> Hash {
    let mut id = Hash([0; 32]);
    let mut last = first;
    for _ in 0..count {
        id = contract_id_of_bytes(&id, &[]);
        let at = id.0[0] as usize;
        counts[at] = counts[at].saturating_sub(1);
        last = hash_change(last, zeros, counts[at]);
    }
    last
}

/// Zeros, of which the strings are made.
fn made_zeros(alloc: Global) -> Result<Vec<u8>, AllocError> {
    let mut zeros = Vec::new(alloc);
    for _ in 0..MOST {
        zeros.push(0)?;
    }
    Ok(zeros)
}

/// Hashes strings as long as those of so many ids that are added to a tree and taken out again, alone. Puts at the end how many there
/// were, and the last hash.
pub(crate) fn put_buckets(alloc: Global, count: u64, out: &mut Answer) {
    let Ok(zeros) = made_zeros(alloc) else {
        return out.lack();
    };
    let mut counts = [0; 256];
    let full = hash_adds(&mut counts, &zeros, count, Hash([0; 32]));
    let last = hash_removes(&mut counts, &zeros, count, full);
    out.number(count.saturating_mul(2 * OF_CHANGE));
    out.put(" hashes alone ");
    out.digits(last.as_bytes());
    out.put("\n");
}
