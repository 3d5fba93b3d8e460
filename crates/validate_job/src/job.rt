//! The job of checking a request's views.
ghost use Rattle.std.specs.Prelude.{◌≡◌, ◌+◌, ◌-◌, ◌<◌, ◌^◌, All, IfNone, IfOk, IfSome, OnErr, OnOk, length, min};
ghost use Rattle.confirm_reply.specs.Offered.{roots_shown};
ghost use Rattle.confirm_reply.specs.Verdict.{CanCheck};
ghost use Rattle.validate_job.specs.Owed.{owed_on};
ghost use Rattle.validate_job.specs.Outcome.{IsOutcome};

use crate::finished::Finished;
use canton_model::{ViewVerdict, ViewVerdictList};
use confirm_reply::{CheckInput, check_view_among, put_together};
use lang_eval::NativeList;
use ledger_terms::{ActionNodeList, Exact, Path, PathList};
use std::alloc::{AllocError, Global};
use std::marker::Model;
use std::mem;

/// Checks views of a request, one at each step. As a future it takes one step at each poll, and asks the language alone.
#[derive(Drop)]
pub struct ValidateJob<'s> {
    input: CheckInput<'s>,
    place: u64,
    views: PathList,
    // How many of the views are checked.
    checked: usize,
    // All that is opened, put together as the first view is checked.
    roots: ActionNodeList,
    // The verdicts on those, until the last is handed out with them.
    verdicts: ViewVerdictList,
}

impl<'s> Model for ValidateJob<'s> {
    ghost use Rattle.std.specs.Prelude.{◌≡◌, ◌-◌, ◌<◌, ◌≤◌, ◌++◌, All, drop, length};
    ghost use Rattle.validate_job.specs.Job.{Job};

    ghost Value = { Job };

    ghost use Rattle.ledger_terms.specs.Forest.{coded_forest};
    ghost use Rattle.ledger_terms.specs.Packages.{coded_package};
    ghost use Rattle.view_split.specs.Holed.{coded_holed};
    ghost use Rattle.std.specs.Coded.{codes};

    ghost coded = { Prim.hlevel (codes, coded_forest, coded_holed, coded_package) };

    ghost view = { λ j. record { given = record { input = j.input; place = j.place; views = j.views }; left = length j.views - j.checked } };

    ghost use Rattle.confirm_reply.specs.Offered.{roots_shown};
    ghost use Rattle.confirm_reply.specs.Verdict.{CanCheck};
    ghost use Rattle.validate_job.specs.Owed.{owed_on_each};

    ghost invariant = { λ j. All (CanCheck j.input) j.views × (j.checked ≤ length j.views)
        × (0 < j.checked → j.roots ≡ roots_shown j.input.shown)
        × (j.checked < length j.views → j.verdicts ++ owed_on_each j.input (drop j.checked j.views) ≡ owed_on_each j.input j.views) };
}

// Puts all that is opened together before the first view is checked.
fn put_once(
    alloc: Global,
    input: &CheckInput<'_>,
    checked: usize,
    roots: &mut ActionNodeList,
) -> Result<(), AllocError>
    requires { 0 < checked → roots.old ≡ roots_shown input.now.shown }
    ensures ok { OnOk result (roots.new ≡ roots_shown input.now.shown) }
    ensures err { OnErr result (roots.new ≡ roots.old) }
{
    if checked == 0 {
        *roots = put_together(alloc, input)?;
    }
    Ok(())
}

// A view's path with the verdict on it.
fn verdict_on(
    alloc: Global,
    natives: &NativeList,
    input: &CheckInput<'_>,
    roots: &ActionNodeList,
    path: &Path,
) -> Result<ViewVerdict, AllocError>
    requires together { roots.now ≡ roots_shown input.now.shown }
    requires checkable { CanCheck input.now path.now }
    ensures { IfOk result (λ verdict. verdict ≡ owed_on input.now path.now) }
{
    let verdict = check_view_among(alloc, natives, input, roots, path)?;
    let view = path.copied()?;
    Ok(ViewVerdict { view, verdict })
}

impl<'s> ValidateJob<'s> {
    /// A job that checks the views with these paths of the request at `place`, none of them checked yet. There has to be one at least, and each that is
    /// opened has to be one that can be checked (`CanCheck`). `input` is what the participant checks the request by.
    pub fn new(input: CheckInput<'s>, place: u64, views: PathList) -> ValidateJob<'s>
        requires some { 0 < length views }
        requires each { All (CanCheck input) views }
        ensures { result ≡ record { given = record { input = input.entry; place = place; views = views }; left = length views } }
    {
        let alloc = *views.allocator();
        ValidateJob {
            input,
            place,
            views,
            checked: 0,
            roots: ActionNodeList::new(alloc),
            verdicts: ViewVerdictList::new(alloc),
        }
    }

    /// The place of the request that is checked.
    pub fn place(&self) -> u64
        ensures { result ≡ self.now.given.place }
    {
        self.place
    }

    /// How many views are left to check, or 2^32 - 1 where these are more.
    pub fn left(&self) -> u32
        ensures { result ≡ min self.now.left (2 ^ 32 - 1) }
    {
        let left = self.views.len() - self.checked;
        left.min(u32::MAX as usize) as u32
    }

    /// Gives the job up before its end, and tells the place of its request.
    pub fn cancel(self) -> u64
        ensures { result ≡ self.entry.given.place }
    {
        let ValidateJob { place, .. } = self;
        place
    }

    /// Checks the next view, of which one has to be left, and gives the verdicts on all views after the last. None where views are left to check. After
    /// want of memory the job is as before.
    pub fn check_next(&mut self) -> Result<Option<Finished>, AllocError>
        requires { 0 < self.old.left }
        ensures one_view { OnOk result (self.new.left + 1 ≡ self.old.left) }
        ensures given { self.new.given ≡ self.old.given }
        ensures none { IfOk result (λ o. IfNone o (0 < self.new.left)) }
        ensures last { IfOk result (λ o. IfSome o (λ finished. self.new.left ≡ 0)) }
        ensures finished { IfOk result (λ o. IfSome o (λ finished. IsOutcome self.old.given finished)) }
        ensures err { OnErr result (self.new ≡ self.old) }
    {
        let alloc = *self.views.allocator();
        self.check_next_by(&NativeList::new(alloc))
    }

    /// Checks the next view, of which one has to be left, and gives the verdicts on all views after the last; None where views are left to check. The
    /// choices that `natives` has are asked of them in place of the contract language. After want of memory the job is as before.
    pub fn check_next_by(&mut self, natives: &NativeList) -> Result<Option<Finished>, AllocError>
        requires { 0 < self.old.left }
        ensures one_view { OnOk result (self.new.left + 1 ≡ self.old.left) }
        ensures given { self.new.given ≡ self.old.given }
        ensures none { IfOk result (λ o. IfNone o (0 < self.new.left)) }
        ensures last { IfOk result (λ o. IfSome o (λ finished. self.new.left ≡ 0)) }
        ensures finished { IfOk result (λ o. IfSome o (λ finished. IsOutcome self.old.given finished)) }
        ensures err { OnErr result (self.new ≡ self.old) }
    {
        let alloc = *self.views.allocator();
        put_once(alloc, &self.input, self.checked, &mut self.roots)?;
        let path = &self.views.as_slice()[self.checked];
        let verdict = verdict_on(alloc, natives, &self.input, &self.roots, path)?;
        self.verdicts.push(verdict)?;
        self.checked += 1;
        if self.checked < self.views.len() {
            return Ok(None);
        }
        let verdicts = mem::replace(&mut self.verdicts, ViewVerdictList::new(alloc));
        Ok(Some(Finished {
            place: self.place,
            verdicts,
        }))
    }
}
