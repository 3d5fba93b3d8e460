//! Laws of jobs, each the contract of a function with nothing to do.
ghost use Rattle.std.specs.Prelude.{◌≡◌, Bool, Some, All, Contains, List};
ghost use Rattle.ledger_model.specs.Opening.{OpenedView};
ghost use Rattle.ledger_model.specs.Terms.{Hash, Path};
ghost use Rattle.ledger_model.specs.declared.status.Status.{Status};
ghost use Rattle.canton_model.specs.Inbox.{Notice};
ghost use Rattle.canton_model.specs.Reading.{Reading};
ghost use Rattle.pruned_inbox.specs.Start.{verdicts_by};
ghost use Rattle.view_split.specs.Placed.{shown_by};
ghost use Rattle.view_split.specs.declared.opened_tree.OpenedTree.{OpenedTree};
ghost use Rattle.confirm_reply.specs.Opened.{CanBeChecked};
ghost use Rattle.confirm_reply.specs.Verdict.{CanCheck};
ghost use Rattle.confirm_reply.specs.declared.check_input.CheckInput.{CheckInput};
ghost use Rattle.confirm_reply.specs.declared.shown.Shown.TheVariants.{Open};
ghost use Rattle.validate_job.specs.Job.{Assignment};
ghost use Rattle.validate_job.specs.Outcome.{IsOutcome};
ghost use Rattle.validate_job.specs.Owed.{owed_on_each};
ghost use Rattle.validate_job.specs.OwedAt.{IsInputOf};
ghost use Rattle.validate_job.specs.declared.finished.Finished.{Finished};

/// Where the input of a check is that of a request of which the participant has a notice (`IsInputOf`), the verdicts on the views that it confirms are
/// those that it owes to the request, by what it knows of contracts, and a job that is given the paths of these views ends with them.
pub fn verdicts_of_jobs_are_owed()
    ensures verdicts { (reading : Reading) (known : Hash → Status) (held : Hash → Bool) (notice : Notice) (input : CheckInput)
        → IsInputOf reading known held notice input
        → owed_on_each input notice.confirmed ≡ verdicts_by reading input.setup.now.topology.params input.me input.time known held (Some notice) }
    ensures finished { (reading : Reading) (known : Hash → Status) (held : Hash → Bool) (notice : Notice) (given : Assignment) (finished : Finished)
        → IsInputOf reading known held notice given.input
        → given.views ≡ notice.confirmed
        → IsOutcome given finished
        → finished.verdicts ≡ verdicts_by reading given.input.setup.now.topology.params given.input.me given.input.time known held (Some notice) }
{}

/// A job can be given any paths, where each view that is opened can be checked.
pub fn jobs_can_be_given()
    ensures { (input : CheckInput) (paths : List Path)
        → ((tree : OpenedTree) (view : OpenedView) → input.shown ≡ Open tree → Contains (shown_by tree).views view
        → CanBeChecked input.setup.now.checked (shown_by tree) view)
        → All (CanCheck input) paths }
{}
