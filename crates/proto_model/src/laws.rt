//! Laws of requests in blinded envelopes, each the contract of a function with nothing to do.
ghost use Rattle.std.specs.Prelude.{◌≡◌, ℕ, true, false, List, [], Some, None};
ghost use Rattle.ledger_terms.specs.declared.topology.Topology.{Topology};
ghost use Rattle.ledger_model.specs.Opening.{Transaction};
ghost use Rattle.canton_model.specs.declared.request.Request.{Request};
ghost use Rattle.lang_eval.specs.Found.{Packages};
ghost use Rattle.blind_tree.specs.Blind.{Salts, is_host_named};
ghost use Rattle.blind_tree.specs.Recipients.{is_recipient};
ghost use Rattle.blind_tree.specs.ShownViews.{roles_of_all};
ghost use Rattle.blind_tree.specs.declared.tree.Tree.{Tree};
ghost use Rattle.sealed_form.specs.SealedForm.{CanBeSealed, Whole, envelope_to, request_of, tree_in, views_by};
ghost use Rattle.framed_form.specs.FramedForm.{opened_to};
ghost use Rattle.proto_model.specs.RequestedViews.{ShowsNoContents, requested_views};

/// Nothing is opened to a participant without an envelope, and the request that a sender makes of a transaction in its own name has an envelope for no
/// participant but the sender and who sees a view.
pub fn nothing_is_opened_without_an_envelope()
    ensures opened { (topology : Topology) (request : Request) (p : ℕ) → envelope_to p request.envelopes ≡ None → opened_to topology p request ≡ None }
    ensures made { (topology : Topology) (packages : Packages) (sender : ℕ) (name command : List ℕ) (salts : Salts) (t : Transaction) (p : ℕ)
        → is_host_named topology.hosts sender name ≡ true
        → is_recipient topology.hosts (views_by packages t) sender p ≡ false
        → envelope_to p (request_of topology packages sender name command salts t).envelopes ≡ None }
{}

/// Of the request of a transaction that can be sealed, the mediator's bytes tell the sender's name and the informees and confirmers of every view, and
/// show neither contents nor who requests.
pub fn the_mediator_is_told_who_sees_and_confirms()
    ensures told { (topology : Topology) (packages : Packages) (sender : ℕ) (command : List ℕ) (whole : Whole)
        → CanBeSealed topology packages sender whole
        → requested_views (request_of topology packages sender whole.sender command whole.salts whole.transaction)
        ≡ Some (record { sender = whole.sender; views = roles_of_all [] 0 (views_by packages whole.transaction) }) }
    ensures no_contents { (topology : Topology) (packages : Packages) (sender : ℕ) (command : List ℕ) (whole : Whole) (tree : Tree)
        → CanBeSealed topology packages sender whole
        → tree_in (request_of topology packages sender whole.sender command whole.salts whole.transaction).mediator ≡ Some tree
        → ShowsNoContents tree }
{}
