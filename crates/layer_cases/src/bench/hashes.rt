//! Hashes of strings of 200 and of 33 bytes.
use crate::answer::Answer;
use hash_id::contract_id_of_bytes;
use ledger_terms::Hash;

/// With the tag and the salt before it, a string of 200 bytes: four blocks of SHA-256.
pub(crate) const LONG: [u8; 167] = [90; 167];

/// With the tag and the salt before it, a string of 33 bytes: one block.
pub(crate) const SHORT: [u8; 0] = [];

/// Puts the last of so many ids of contracts with this instance at the end, each with the one before as its salt. The first salt is 32
/// zeros.
pub(crate) fn put_last(count: u64, instance: &[u8], out: &mut Answer) {
    let mut last = Hash([0; 32]);
    for _ in 0..count {
        last = contract_id_of_bytes(&last, instance);
    }
    out.digits(last.as_bytes());
    out.put("\n");
}
