//! Laws of the report.
ghost use Rattle.std.specs.Prelude.{◌≡◌, ℕ, true, Some, slice_get};
ghost use Rattle.ledger_terms.specs.declared.host.Host.{Host};
ghost use Rattle.ledger_terms.specs.declared.topology.Topology.{Topology};
ghost use Rattle.canton_model.specs.Reading as reading;
ghost use Rattle.canton_model.specs.declared.request.Request.{Request};
ghost use Rattle.lang_eval.specs.Found.{Packages};
ghost use Rattle.framed_form.specs.Framed.{is_framed};
ghost use Rattle.framed_form.specs.FramedReading.{framed_reading};
ghost use Rattle.report_text.specs.Entries.{is_recipient, views_told};

/// The recipients that the report names beside a framed request, whoever sent it, are those of the protocol: participant p, whose host is `host`, is
/// one by the report's test exactly where it is one by the protocol's.
pub fn recipients_are_those_of_the_protocol()
    ensures { (topology : Topology) (packages : Packages) (request : Request) (p : ℕ) (host : Host) → is_framed topology request ≡ true
        → slice_get topology.hosts p ≡ Some host
        → is_recipient request.sender (views_told request) p host ≡ reading.is_recipient (framed_reading topology packages) p request }
{}
