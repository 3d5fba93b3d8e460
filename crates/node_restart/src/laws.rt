//! Laws of restarts, each the contract of a function with nothing to do.
ghost use Rattle.std.specs.Prelude.{◌≡◌, ◌++◌, List};
ghost use Rattle.canton_model.specs.Inbox.{inbox};
ghost use Rattle.canton_model.specs.declared.entry.Entry.{Entry};
ghost use Rattle.pruned_inbox.specs.Alike.{AnswersAlike};
ghost use Rattle.world_model.specs.Machine.{Machine};
ghost use Rattle.world_model.specs.Node.{next_claim, outbox_head};
ghost use Rattle.node_core.specs.Participant.{HasRead, Participant, items_of, next_place, next_response, params_of, reading_of};
ghost use Rattle.node_core.specs.States.{IsStateOf, begun_again};
ghost use Rattle.node_restart.specs.GoingOn.{CanGoOn, having_read, never_stopped};
ghost use Rattle.node_restart.specs.Restarted.{CanRestart, HasRestarted, IsPrunedFrom};
ghost use Rattle.node_restart.specs.Short.{HasReadShort};
ghost use Rattle.node_state.specs.declared.node_state.NodeState.{NodeState as State};
ghost use Rattle.snapshot_store.specs.Spellable.{IsSpellableState};

/// The state of a participant that has read a genuine log of fewer than 2^15 entries, pruned or not, has a spelling: what framed requests tell, show
/// and open is never more than a spelling has room for.
pub fn states_are_spellable()
    ensures { (p : Participant) (log : List Entry) (state : State) → HasReadShort p log state → IsSpellableState state }
{}

/// What begins again from a participant's pruned state is this participant, restarted, however long the log is that it had read. Where the log
/// has fewer than 2^15 entries, the pruned state has a spelling, so that it may be written as bytes and read back in between.
pub fn pruned_states_restart()
    ensures spelled { (m : Machine) (log : List Entry) (p : Participant) (state pruned : State) → CanRestart m log p
        → IsStateOf p state
        → IsPrunedFrom p.topology p.packages state pruned
        → IsSpellableState pruned }
    ensures begun { (m : Machine) (log : List Entry) (p : Participant) (state pruned : State) → HasRead m log p
        → IsStateOf p state
        → IsPrunedFrom p.topology p.packages state pruned
        → HasRestarted m log p (begun_again p.topology p.packages pruned) }
{}

/// Whatever it reads after its restart, a participant answers all that is asked of places from its base on as one that never stopped and has put back
/// what it hadn't finished, and claims and sends next what that one does.
pub fn restarted_participants_go_on()
    ensures read { (m : Machine) (log more : List Entry) (before after : Participant) → CanGoOn m log more before after
        → HasRead m (log ++ more) (having_read log more after) }
    ensures answers { (m : Machine) (log more : List Entry) (before after : Participant) → CanGoOn m log more before after
        → AnswersAlike (reading_of after) (params_of after) after.me (inbox (reading_of after) after.me (log ++ more))
        (items_of (having_read log more after)) after.base after.start }
    ensures claim { (m : Machine) (log more : List Entry) (before after : Participant) → CanGoOn m log more before after
        → next_place (having_read log more after) ≡ next_claim (reading_of after) (params_of after) after.me
        (never_stopped before (inbox (reading_of after) after.me (log ++ more))) }
    ensures response { (m : Machine) (log more : List Entry) (before after : Participant) → CanGoOn m log more before after
        → next_response (having_read log more after)
        ≡ outbox_head (params_of after) (never_stopped before (inbox (reading_of after) after.me (log ++ more))) }
{}
