//! Bounds, each the contract of a function with nothing to do.
ghost use Rattle.std.specs.Prelude.{◌≡◌, ◌≤◌, ◌*◌, ℕ, All, Bool, Contains, List, length};
ghost use Rattle.std.specs.List.{IsDistinct};
ghost use Rattle.std.specs.Str.{bytes_eq};
ghost use Rattle.ledger_terms.specs.Depth.{depth};
ghost use Rattle.ledger_terms.specs.Forest.{size};
ghost use Rattle.ledger_terms.specs.declared.active_row.ActiveRow.{ActiveRow};
ghost use Rattle.ledger_terms.specs.declared.act.Act.{Act};
ghost use Rattle.ledger_terms.specs.declared.limits.TheConstants.{MOST_ACTION_DEPTH};
ghost use Rattle.ledger_terms.specs.declared.topology.Topology.{Topology};
ghost use Rattle.ledger_model.specs.Forest.{acts};
ghost use Rattle.ledger_model.specs.Opening.{Shown};
ghost use Rattle.ledger_model.specs.Terms.{Hash, ParticipantId};
ghost use Rattle.canton_model.specs.Checks.{verdicts_owed};
ghost use Rattle.canton_model.specs.Inbox.{authentic_below, created_below, inbox, node_active};
ghost use Rattle.canton_model.specs.Log.{Params};
ghost use Rattle.canton_model.specs.Reading.{paths_confirmed, paths_seen, view_paths};
ghost use Rattle.canton_model.specs.Reading.Offer.{Open as OpenOffer};
ghost use Rattle.canton_model.specs.declared.entry.Entry.{Entry};
ghost use Rattle.canton_model.specs.declared.request.Request.{Request};
ghost use Rattle.lang_eval.specs.Found.{Packages};
ghost use Rattle.lang_eval.specs.Named.{AreKnown, parties_in_action, parties_in_instance};
ghost use Rattle.message_bytes.specs.Spellable.{AreSpellable};
ghost use Rattle.snapshot_store.specs.Spellable.{AreSpellablePaths, IsSpellableRow};
ghost use Rattle.view_split.specs.Placed.{placed_forest};
ghost use Rattle.view_split.specs.SeenViews.{put_back};
ghost use Rattle.view_split.specs.declared.opened_tree.OpenedTree.{OpenedTree};
ghost use Rattle.blind_tree.specs.OpenedFor.{opened_for_root};
ghost use Rattle.blind_tree.specs.declared.shown_for.OpenedFor.TheVariants.{Open};
ghost use Rattle.sealed_form.specs.Within.{is_hosted};
ghost use Rattle.framed_form.specs.Collisions.{AreFramed};
ghost use Rattle.framed_form.specs.Framed.{IsFramed};
ghost use Rattle.framed_form.specs.FramedForm.{outline_of};
ghost use Rattle.framed_form.specs.FramedReading.{framed_reading};
ghost use Rattle.log_bounds.specs.Bounds.{LEAST_ACTION_BYTES, LEAST_VIEW_BYTES, MOST_OPENED_ACTIONS, WasActive};

/// What is opened of bytes (`root` is the hash of the tree, `seen` the paths of the views seen, `requesters` whether they are asked for) has at most
/// one action for each 32 bytes, since the seed of each stands in them.
pub fn opened_actions_are_few()
    ensures { (root : List ℕ) (seen : List (List ℕ)) (requesters : Bool) (bytes : List ℕ) (opened : OpenedTree)
        → opened_for_root root seen requesters bytes ≡ Open opened
        → LEAST_ACTION_BYTES * length (acts (put_back (placed_forest opened.views))) ≤ length bytes }
{}

/// The mediator is told of at most one view for each 69 bytes, and of at most 16 one below another, whoever made the bytes.
pub fn told_views_are_few()
    ensures few { (request : Request) → LEAST_VIEW_BYTES * size (outline_of request) ≤ length request.mediator }
    ensures nested { (request : Request) → depth (outline_of request) ≤ MOST_ACTION_DEPTH }
{}

/// The paths of a framed request's views, of those that a participant sees, and of those that it confirms have a spelling.
pub fn framed_paths_are_spellable()
    ensures views { (topology : Topology) (packages : Packages) (request : Request) → IsFramed topology request
        → AreSpellablePaths (view_paths (framed_reading topology packages) request) }
    ensures seen { (topology : Topology) (packages : Packages) (request : Request) (p : ParticipantId) → IsFramed topology request
        → AreSpellablePaths (paths_seen (framed_reading topology packages) p request) }
    ensures confirmed { (topology : Topology) (packages : Packages) (request : Request) (p : ParticipantId) → IsFramed topology request
        → AreSpellablePaths (paths_confirmed (framed_reading topology packages) p request) }
{}

/// A framed request asks at most as many participants as the topology has, and has at most as many envelopes.
pub fn framed_requests_are_small()
    ensures confirming { (topology : Topology) (request : Request) → IsFramed topology request → length request.confirming ≤ length topology.hosts }
    ensures envelopes { (topology : Topology) (request : Request) → IsFramed topology request → length request.envelopes ≤ length topology.hosts }
{}

/// What a framed request shows a participant are at most 131,072 actions. The actions that a request shows, framed or not, name parties of the topology
/// alone.
pub fn shown_actions_are_few()
    ensures few { (topology : Topology) (packages : Packages) (request : Request) (p : ParticipantId) (shown : Shown)
        → IsFramed topology request
        → (framed_reading topology packages).offered p request ≡ OpenOffer shown
        → length (acts shown.roots) ≤ MOST_OPENED_ACTIONS }
    ensures named { (topology : Topology) (packages : Packages) (request : Request) (p : ParticipantId) (shown : Shown)
        → (framed_reading topology packages).offered p request ≡ OpenOffer shown
        → All (λ (act : Act). AreKnown (is_hosted topology) (parties_in_action act.action)) (acts shown.roots) }
{}

/// The verdicts that a participant owes to a request of a log of framed ones have a spelling.
pub fn owed_verdicts_are_spellable()
    ensures { (topology : Topology) (packages : Packages) (params : Params) (log : List Entry) (p : ParticipantId) (k : ℕ) → AreFramed topology log
        → AreSpellable (verdicts_owed (framed_reading topology packages) params p (inbox (framed_reading topology packages) p log) k) }
{}

/// Below place n of a log of framed requests a participant has at most n times 131,072 authentic actions, at most as many created contracts,
/// and at most as many active ones.
pub fn actions_of_logs_are_few()
    ensures authentic { (topology : Topology) (packages : Packages) (log : List Entry) (p : ParticipantId) (n : ℕ) → AreFramed topology log
        → length (authentic_below (framed_reading topology packages) (inbox (framed_reading topology packages) p log) n) ≤ MOST_OPENED_ACTIONS * n }
    ensures created { (topology : Topology) (packages : Packages) (log : List Entry) (p : ParticipantId) (n : ℕ) → AreFramed topology log
        → length (created_below (framed_reading topology packages) (inbox (framed_reading topology packages) p log) n) ≤ MOST_OPENED_ACTIONS * n }
    ensures active { (topology : Topology) (packages : Packages) (log : List Entry) (p : ParticipantId) (n : ℕ) → AreFramed topology log
        → length (node_active (framed_reading topology packages) p (inbox (framed_reading topology packages) p log) n) ≤ MOST_OPENED_ACTIONS * n }
{}

/// The rows of the contracts that a participant knows as created or as active below place n of a log of framed requests have a spelling, so that they
/// can be written down.
pub fn rows_of_logs_are_spellable()
    ensures created { (topology : Topology) (packages : Packages) (log : List Entry) (p : ParticipantId) (n : ℕ) → AreFramed topology log
        → All IsSpellableRow (created_below (framed_reading topology packages) (inbox (framed_reading topology packages) p log) n) }
    ensures active { (topology : Topology) (packages : Packages) (log : List Entry) (p : ParticipantId) (n : ℕ) → AreFramed topology log
        → All IsSpellableRow (node_active (framed_reading topology packages) p (inbox (framed_reading topology packages) p log) n) }
{}

/// Contracts that were ever active at a participant over a log of framed requests, each of them once, are at most 131,072 for each entry.
pub fn active_contracts_are_few()
    ensures { (topology : Topology) (packages : Packages) (log : List Entry) (p : ParticipantId) (ids : List Hash) → AreFramed topology log
        → IsDistinct bytes_eq ids
        → ((id : Hash) → Contains ids id → WasActive (framed_reading topology packages) p log id)
        → length ids ≤ MOST_OPENED_ACTIONS * length log }
{}

/// A participant's active contracts over a log of framed requests name parties of the topology alone.
pub fn active_contracts_name_known_parties()
    ensures { (topology : Topology) (packages : Packages) (log : List Entry) (p : ParticipantId) (n : ℕ) → AreFramed topology log
        → All (λ (row : ActiveRow). AreKnown (is_hosted topology) (parties_in_instance row.known.instance))
        (node_active (framed_reading topology packages) p (inbox (framed_reading topology packages) p log) n) }
{}
