//! The spelling of values, sets, lists, instances and actions as bytes.
#![tactic(auto)]

mod composite;
mod decode;
mod decoded;
mod encode;
pub mod laws;
mod length;
mod reader;
mod reader_fault;
mod spellable;
mod wire_fault;

pub use decode::{decode_action, decode_instance, decode_parties, decode_value};
pub use decoded::Decoded;
pub use encode::{
    encode_action, encode_hash, encode_instance, encode_name, encode_parties, encode_truth,
    encode_u32, encode_u64, encode_value, encode_values,
};
pub use length::{action_len, instance_len, parties_len, value_len, values_len};
pub use reader::Reader;
pub use reader_fault::ReaderFault;
pub use spellable::{
    are_spellable, is_spellable, is_spellable_action, is_spellable_instance, is_spellable_set,
};
pub use wire_fault::WireFault;
