//! Raw requests.
use crate::answer::Answer;
use crate::tree::requests::put_confirming;
use fixtures::request_of;
use ledger_terms::{Bytes, RawRequest, Topology};
use proto_model::framed;
use std::alloc::Global;

/// The most participants whose indices a byte has.
const MOST_INDICES: usize = 256;

/// Puts a raw request at the end as it was read of the script, and whether it is framed.
pub(crate) fn put_raw(alloc: Global, topology: &Topology, raw: &RawRequest, out: &mut Answer) {
    out.put("raw ");
    out.host(topology, raw.participant);
    out.line(&["", raw.command.as_str()]);
    put_confirming(topology, raw.confirming.as_slice(), out);
    out.put("mediator ");
    put_bytes(&raw.mediator, out);
    for envelope in raw.envelopes.as_slice() {
        out.put("to ");
        out.host(topology, envelope.to);
        out.put(" ");
        put_bytes(&envelope.bytes, out);
    }
    put_framed(alloc, topology, raw, out);
}

/// Puts at the end whether a raw request is framed, where no index is past those of participants.
fn put_framed(alloc: Global, topology: &Topology, raw: &RawRequest, out: &mut Answer) {
    if topology.hosts.len() > MOST_INDICES {
        return out.line(&["too many participants"]);
    }
    match request_of(alloc, raw) {
        Ok(request) => out.truth("framed", framed(alloc, topology, &request)),
        Err(_) => out.lack(),
    }
}

fn put_bytes(bytes: &Bytes, out: &mut Answer) {
    out.digits(bytes.as_slice());
    out.put("\n");
}
