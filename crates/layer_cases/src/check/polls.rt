//! Polls of jobs.
use crate::answer::Answer;
use crate::check::stores::yes;
use canton_model::{LocalVerdict, ViewVerdict};
use futures::task::Poll;
use futures::test::MockTask;
use validate_job::{Finished, ValidateJob};

/// Puts the place of a job at the end and how many views it has left; where it has some, polls it once and puts what it answers.
pub(crate) fn put_poll(task: &MockTask, job: &mut ValidateJob<'_>, out: &mut Answer) {
    out.put("place ");
    out.number(job.place());
    put_left(job, out);
    if job.left() == 0 {
        return;
    }
    match task.poll(job) {
        Poll::Pending => {
            out.put("pending, woken ");
            out.put(yes(task.is_woken()));
            put_left(job, out);
        }
        Poll::Ready(Ok(finished)) => put_finished(&finished, out),
        Poll::Ready(Err(_)) => out.lack(),
    }
}

fn put_left(job: &ValidateJob<'_>, out: &mut Answer) {
    out.put(" left ");
    out.number(job.left() as u64);
    out.put("\n");
}

fn put_finished(finished: &Finished, out: &mut Answer) {
    out.put("ready place ");
    out.number(finished.place);
    out.put("\n");
    for said in finished.verdicts.as_slice() {
        put_verdict(said, out);
    }
}

/// Puts the path of a view at the end, and the word of a reason with the number of its action, or that of an approval.
fn put_verdict(said: &ViewVerdict, out: &mut Answer) {
    out.put("verdict ");
    out.path(&said.view);
    match &said.verdict {
        LocalVerdict::Approve => out.line(&[" approve"]),
        LocalVerdict::Reject { reason, action } => {
            out.put(" ");
            out.put(reason.name());
            out.put(" ");
            out.number(*action as u64);
            out.put("\n");
        }
    }
}
