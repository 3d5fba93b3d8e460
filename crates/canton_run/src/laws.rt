//! Laws of runs, each the contract of a function with nothing to do.
ghost use Rattle.std.specs.Prelude.{◌≡◌, ◌<◌, ◌≤◌, ◌++◌, ℕ, List, codes, false, min};
ghost use Rattle.canton_model.specs.Inbox.{clean, inbox};
ghost use Rattle.canton_model.specs.Ledger.{is_withheld};
ghost use Rattle.canton_model.specs.declared.entry.Entry.{Entry};
ghost use Rattle.commitment_text.specs.Commitments.{pair_text, place_text, told_text};
ghost use Rattle.commitment_text.specs.Counterparties.{counterparty_over};
ghost use Rattle.framed_form.specs.Collisions.{Collides};
ghost use Rattle.node_core.specs.declared.submit_result.SubmitResult.{SubmitResult};
ghost use Rattle.script_read.specs.declared.script.Script.{Script};
ghost use Rattle.trigger_rules.specs.declared.caused.Caused.{Caused};
ghost use Rattle.canton_run.specs.Restarts.{base_in};
ghost use Rattle.canton_run.specs.Run.{IsRun, params_of, reading_for};

use commitment_text::laws::counterparties_are_told_equal;
use trigger_rules::Answering;

/// Two participants of a run are compared at the lesser of their clean places. Where the log doesn't collide, nothing below that place is withheld from
/// either, and neither's base is past it, their line among the commitments has one count for both and says `equal`.
pub fn counterparties_of_a_run_are_told_equal<A: Answering>()
    ensures { (answer : A) (script : Script) (capacity workers : ℕ) (log : List Entry) (results : List SubmitResult) (ends : List ℕ) (caused : List Caused)
        (p q : ℕ) (name other : List ℕ) (place : ℕ)
        → IsRun (A.may_answer answer) script capacity workers log results ends caused
        → (Collides script.topology log → ⊥)
        → place ≡ min (clean (params_of script) (inbox (reading_for script) p log)) (clean (params_of script) (inbox (reading_for script) q log))
        → base_in script log ends p ≤ place
        → base_in script log ends q ≤ place
        → ((k : ℕ) → k < place → is_withheld (reading_for script) log p k ≡ false)
        → ((k : ℕ) → k < place → is_withheld (reading_for script) log q k ≡ false)
        → (count : ℕ) × (pair_text (reading_for script) (counterparty_over (reading_for script) (params_of script) log p name (base_in script log ends p))
        (counterparty_over (reading_for script) (params_of script) log q other (base_in script log ends q))
        ≡ place_text name other place ++ told_text count count (codes "equal")) }
{
    counterparties_are_told_equal();
}
