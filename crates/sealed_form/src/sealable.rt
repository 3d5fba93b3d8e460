//! Whether a transaction that is split can be sealed.
ghost use Rattle.std.specs.Prelude.{◌≡◌, ◌↔◌, ℕ, List, Ok, IsTrue};
ghost use Rattle.ledger_terms.specs.Drafts.{Drafts};
ghost use Rattle.ledger_terms.specs.Topologies.{IsValid};
ghost use Rattle.ledger_terms.specs.declared.command.Command.{Command};
ghost use Rattle.ledger_terms.specs.declared.known.Known.{Known};
ghost use Rattle.ledger_terms.specs.declared.topology.Topology.{Topology};
ghost use Rattle.ledger_terms.specs.declared.tx.Tx.{Tx};
ghost use Rattle.lang_eval.specs.Found.{Packages};
ghost use Rattle.lang_eval.specs.HandedIn.{parties_in_commands, parties_in_drafts};
ghost use Rattle.interpret.specs.FilledTree.{IsFilled};
ghost use Rattle.interpret.specs.Wanted.{IsWanted};
ghost use Rattle.view_split.specs.Faults.{views_of_tx};
ghost use Rattle.blind_tree.specs.LeafBytes.{AreSpellable};
ghost use Rattle.sealed_form.specs.SealedForm.{CanBeSealed};
ghost use Rattle.sealed_form.specs.Submission.{IsSubmittedWithin, whole_with_seed};

use blind_tree::are_spellable;
use view_split::Views;

/// Whether the formats have room for a transaction that is split into these views. They have room for each that is interpreted or filled of what is
/// submitted within a valid topology (`IsSubmittedWithin`), and such a transaction can be sealed (`CanBeSealed`).
pub fn is_sealable(views: &Views) -> bool
    ensures exact { IsTrue result ↔ AreSpellable views.now }
    ensures wanted { (topology : Topology) (packages : Packages) (known : List Known) (commands : List Command) (tx : Tx) (sender : ℕ) (name : List ℕ)
        → IsValid topology
        → IsSubmittedWithin topology packages known sender name tx.act_as (parties_in_commands commands)
        → views_of_tx packages tx ≡ Ok views.now
        → IsWanted packages known tx.seed tx.act_as commands tx.roots
        → IsTrue result × CanBeSealed topology packages sender (whole_with_seed name tx) }
    ensures filled { (topology : Topology) (packages : Packages) (known : List Known) (drafts : Drafts) (tx : Tx) (sender : ℕ) (name : List ℕ)
        → IsValid topology
        → IsSubmittedWithin topology packages known sender name tx.act_as (parties_in_drafts drafts)
        → views_of_tx packages tx ≡ Ok views.now
        → IsFilled known tx.seed drafts tx.roots
        → IsTrue result × CanBeSealed topology packages sender (whole_with_seed name tx) }
{
    // the prover learns from this call that a set rises
    let _requesters = views.act_as.as_slice();
    are_spellable(views)
}
