//! Participants, times and packages.
use crate::answer::Answer;
use ledger_terms::{Host, Package, Template, Topology};

/// Puts a line for each participant at the end, and one for the times.
pub(crate) fn put_topology(topology: &Topology, out: &mut Answer) {
    for host in topology.hosts.as_slice() {
        put_participant(host, out);
    }
    out.put("times ");
    out.number(topology.params.response_timeout);
    out.put(" ");
    out.number(topology.params.reaction_timeout);
    out.put(" ");
    out.number(topology.params.skew);
    out.put("\n");
}

fn put_participant(host: &Host, out: &mut Answer) {
    out.put("participant ");
    out.put(host.name.as_str());
    out.put(" hosts ");
    out.names(host.parties.as_slice());
    out.put(" observes ");
    out.number(host.observing.len() as u64);
    out.put(" vets ");
    out.names(host.vetted.as_slice());
    out.put("\n");
}

/// Puts a line for each package at the end, and one for each of its templates with its fields.
pub(crate) fn put_packages(packages: &[Package], out: &mut Answer) {
    for package in packages {
        out.line(&["package", package.name.as_str()]);
        for template in package.templates.as_slice() {
            put_template(template, out);
        }
    }
}

fn put_template(template: &Template, out: &mut Answer) {
    out.put("template ");
    out.put(template.name.as_str());
    for field in template.fields.as_slice() {
        out.put(" ");
        out.put(field.name.as_str());
    }
    out.put("\n");
}
