//! Which layer answers.
use crate::answer::Answer;
use crate::check::Cases;
use crate::layer::Layer;
use crate::{bench, form, load, run, sharing, tree, world};
use futures::test::MockTask;
use std::alloc::{AllocError, AllocGlobal, Global};
use std::random::RandomSource;
use std::sync::Wait;
use std::thread::Threads;

/// The layer that answers now, None before a line has named one, and what the cases of checks keep between their lines.
#[derive(Drop)]
pub(crate) struct Layers {
    answering: Option<Layer>,
    checks: Cases,
}

impl Layers {
    pub(crate) fn new(alloc: Global) -> Result<Layers, AllocError> {
        Ok(Layers {
            answering: None,
            checks: Cases::new(alloc)?,
        })
    }

    /// The text that answers a line.
    pub(crate) fn answer<R: Threads + Wait + Sync + RandomSource + AllocGlobal>(
        &mut self,
        rt: &R,
        task: &MockTask,
        line: &str,
    ) -> Result<String, AllocError> {
        let mut out = Answer::new(rt.alloc());
        match Layer::named_by(line) {
            Some(layer) => {
                self.answering = Some(layer);
                out.line(&[line]);
            }
            None => self.put_answer(rt, task, line, &mut out),
        }
        out.finish()
    }

    /// Puts what the layer that answers now says to a case; without one the line is written again.
    fn put_answer<R: Threads + Wait + Sync + RandomSource + AllocGlobal>(
        &mut self,
        rt: &R,
        task: &MockTask,
        line: &str,
        out: &mut Answer,
    ) {
        let alloc = rt.alloc();
        match self.answering {
            Some(Layer::Form) => form::put_answer(alloc, line, out),
            Some(Layer::Tree) => tree::put_answer(alloc, line, out),
            Some(Layer::Load) => load::put_answer(alloc, line, out),
            Some(Layer::Check) => self.checks.put_answer(alloc, task, line, out),
            Some(Layer::World) => world::put_answer(alloc, task, line, out),
            Some(Layer::Sharing) => sharing::put_answer(rt, line, out),
            Some(Layer::Run) => run::put_answer(rt, line, out),
            Some(Layer::Bench) => bench::put_answer(alloc, line, out),
            None => out.line(&[line]),
        }
    }
}
