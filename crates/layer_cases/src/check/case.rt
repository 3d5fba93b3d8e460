//! Cases.
use crate::answer::Answer;
use crate::check::jobs::put_job;
use crate::check::plain::Plain;
use crate::check::requests::follow_all;
use crate::check::stores::call_store;
use crate::check::trackers::call_tracker;
use crate::words::Words;
use contract_store::Store;
use futures::test::MockTask;
use request_track::Tracker;
use std::alloc::{AllocError, Global};

/// The tracker and the store that lines call, and plain lists that are kept beside them for comparison. Each has a box, since what holds one by value
/// is dear to prove.
#[derive(Drop)]
pub(crate) struct Cases {
    pub(crate) tracker: Box<Tracker>,
    pub(crate) store: Box<Store>,
    pub(crate) plain: Box<Plain>,
}

fn new_tracker(alloc: Global) -> Result<Box<Tracker>, AllocError> {
    Ok(Box::new(alloc, Tracker::new(alloc))?)
}

fn new_store(alloc: Global) -> Result<Box<Store>, AllocError> {
    Ok(Box::new(alloc, Store::new(alloc))?)
}

impl Cases {
    pub(crate) fn new(alloc: Global) -> Result<Cases, AllocError> {
        Ok(Cases {
            tracker: new_tracker(alloc)?,
            store: new_store(alloc)?,
            plain: Box::new(alloc, Plain::new(alloc))?,
        })
    }

    /// Puts what answers a line at the end.
    pub(crate) fn put_answer(
        &mut self,
        alloc: Global,
        task: &MockTask,
        line: &str,
        out: &mut Answer,
    ) {
        let mut words = Words::of(line);
        match words.next() {
            "job" => put_job(alloc, task, words, out),
            "new" => self.renew(alloc, line, out),
            "tracker" => call_tracker(&mut self.tracker, line, words, out),
            "store" => call_store(alloc, &mut self.store, line, words, out),
            "requests" => follow_all(alloc, self, line, words, out),
            _ => out.line(&[line]),
        }
    }

    /// Makes all three anew, with nothing read.
    fn renew(&mut self, alloc: Global, line: &str, out: &mut Answer) {
        match Cases::new(alloc) {
            Ok(cases) => *self = cases,
            Err(_) => out.lack(),
        }
        out.line(&[line]);
    }
}
