//! Laws of the text of commitments, each the contract of a function with nothing to do.
ghost use Rattle.std.specs.Prelude.{◌≡◌, ◌<◌, ◌≤◌, ◌++◌, ℕ, List, codes, false, min};
ghost use Rattle.ledger_terms.specs.declared.topology.Topology.{Topology};
ghost use Rattle.canton_model.specs.Genuine.{Genuine};
ghost use Rattle.canton_model.specs.Inbox.{clean, inbox};
ghost use Rattle.canton_model.specs.Ledger.{is_withheld};
ghost use Rattle.canton_model.specs.declared.entry.Entry.{Entry};
ghost use Rattle.lang_eval.specs.Found.{Packages};
ghost use Rattle.framed_form.specs.Collisions.{Collides};
ghost use Rattle.framed_form.specs.FramedReading.{framed_reading};
ghost use Rattle.canton_model.specs.Reading.{Reading};
ghost use Rattle.ledger_terms.specs.declared.host.Host.{Host};
ghost use Rattle.commitment_text.specs.Commitments.{base_of, commitments_of, pair_text, place_of, place_text, pruned_text, told_text};
ghost use Rattle.commitment_text.specs.Counterparties.{Counterparty, counterparty_over};
ghost use Rattle.commitment_text.specs.Knowledge.{KnowAlike, Knowledge};

use acs_commit::laws::counterparties_agree;

/// In a genuine log that doesn't collide, the line of two participants says that both share equally many contracts with the other, and
/// `equal`, where nothing is withheld from either below the lesser of their clean places, and neither's base is past that.
pub fn counterparties_are_told_equal()
    ensures { (topology : Topology) (packages : Packages) (log : List Entry) (p q : ℕ) (name other : List ℕ) (b c place : ℕ)
        → Genuine (framed_reading topology packages) topology.params log
        → (Collides topology log → ⊥)
        → place ≡ min (clean topology.params (inbox (framed_reading topology packages) p log))
        (clean topology.params (inbox (framed_reading topology packages) q log))
        → b ≤ place
        → c ≤ place
        → ((k : ℕ) → k < place → is_withheld (framed_reading topology packages) log p k ≡ false)
        → ((k : ℕ) → k < place → is_withheld (framed_reading topology packages) log q k ≡ false)
        → (count : ℕ) × (pair_text (framed_reading topology packages)
        (counterparty_over (framed_reading topology packages) topology.params log p name b)
        (counterparty_over (framed_reading topology packages) topology.params log q other c)
        ≡ place_text name other place ++ told_text count count (codes "equal")) }
{
    counterparties_agree();
}

/// Where the lesser of two participants' clean places is below the greater of their bases, their line tells that base.
pub fn forgotten_places_are_told()
    ensures { (reading : Reading) (one other : Counterparty)
        → place_of one other < base_of one other
        → pair_text reading one other ≡ pruned_text one.name other.name (base_of one other) }
{}

/// The text tells nothing of what is active below a participant's base: where what participants know differs there alone, their texts are the same.
pub fn commitments_tell_nothing_below_bases()
    ensures { (reading : Reading) (hosts : List Host) (known other : List Knowledge)
        → KnowAlike known other
        → commitments_of reading hosts known ≡ commitments_of reading hosts other }
{}
