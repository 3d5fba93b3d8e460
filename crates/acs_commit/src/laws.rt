//! Laws of commitments, each the contract of a function with nothing to do.
ghost use Rattle.std.specs.Prelude.{◌≡◌, ◌<◌, ◌≤◌, ℕ, List, false, length, take};
ghost use Rattle.ledger_terms.specs.Parties.{set_of};
ghost use Rattle.ledger_terms.specs.declared.topology.Topology.{Topology};
ghost use Rattle.canton_model.specs.Genuine.{Genuine};
ghost use Rattle.canton_model.specs.Inbox.{clean, inbox, node_active};
ghost use Rattle.canton_model.specs.Ledger.{is_withheld};
ghost use Rattle.canton_model.specs.Shared.{shared_with};
ghost use Rattle.canton_model.specs.declared.entry.Entry.{Entry};
ghost use Rattle.lang_eval.specs.Found.{Packages};
ghost use Rattle.framed_form.specs.Collisions.{Collides};
ghost use Rattle.framed_form.specs.FramedReading.{framed_reading};
ghost use Rattle.acs_commit.specs.Collisions.{OneRootOneSet};
ghost use Rattle.acs_commit.specs.Shared.{shared_ids};
ghost use Rattle.acs_commit.specs.Trees.{root_of};

use canton_model::laws::shared_contracts_agree;
use framed_form::laws::{
    framed_logs_are_one_ledger, framed_reading_is_reading, logs_that_do_not_collide,
};

/// Two sets with one root are one set, or two different strings that are hashed in them have one hash.
pub fn one_root_one_set()
    ensures { OneRootOneSet }
{}

/// In a genuine log that doesn't collide two participants know the same contracts of which each of them hosts a stakeholder, at each
/// place up to both of their clean places and below which nothing is withheld from either, however far each has read; and so the
/// roots of their trees are equal.
pub fn counterparties_agree()
    ensures contracts { (topology : Topology) (packages : Packages) (log : List Entry) (p q n o m : ℕ)
        → Genuine (framed_reading topology packages) topology.params log
        → (Collides topology log → ⊥)
        → n ≤ length log
        → o ≤ length log
        → m ≤ clean topology.params (inbox (framed_reading topology packages) p (take n log))
        → m ≤ clean topology.params (inbox (framed_reading topology packages) q (take o log))
        → ((k : ℕ) → k < m → is_withheld (framed_reading topology packages) log p k ≡ false)
        → ((k : ℕ) → k < m → is_withheld (framed_reading topology packages) log q k ≡ false)
        → shared_with (framed_reading topology packages) q
        (node_active (framed_reading topology packages) p (inbox (framed_reading topology packages) p (take n log)) m)
        ≡ shared_with (framed_reading topology packages) p
        (node_active (framed_reading topology packages) q (inbox (framed_reading topology packages) q (take o log)) m) }
    ensures roots { (topology : Topology) (packages : Packages) (log : List Entry) (p q n o m : ℕ)
        → Genuine (framed_reading topology packages) topology.params log
        → (Collides topology log → ⊥)
        → n ≤ length log
        → o ≤ length log
        → m ≤ clean topology.params (inbox (framed_reading topology packages) p (take n log))
        → m ≤ clean topology.params (inbox (framed_reading topology packages) q (take o log))
        → ((k : ℕ) → k < m → is_withheld (framed_reading topology packages) log p k ≡ false)
        → ((k : ℕ) → k < m → is_withheld (framed_reading topology packages) log q k ≡ false)
        → root_of (set_of (shared_ids (framed_reading topology packages) q
        (node_active (framed_reading topology packages) p (inbox (framed_reading topology packages) p (take n log)) m)))
        ≡ root_of (set_of (shared_ids (framed_reading topology packages) p
        (node_active (framed_reading topology packages) q (inbox (framed_reading topology packages) q (take o log)) m))) }
{
    framed_reading_is_reading();
    framed_logs_are_one_ledger();
    logs_that_do_not_collide();
    shared_contracts_agree();
}
