//! Results that wait to be put in order.
ghost use Rattle.std.specs.Prelude.{◌≡◌, ◌++◌, ◌∷◌, [], OnOk, IfNone, IfSome};

use node_core::SubmitResult;
use std::alloc::{AllocError, Global};
use std::collections::VecDeque;
use std::marker::Model;

/// The results of one participant's submissions, in their order. Contracts see the list of them.
#[derive(Drop)]
pub struct ResultQueue {
    results: VecDeque<SubmitResult>,
}

impl Model for ResultQueue {
    ghost use Rattle.std.specs.Prelude.{List};
    ghost use Rattle.node_core.specs.declared.submit_result.SubmitResult.{SubmitResult};

    ghost Value = { List SubmitResult };

    ghost view = { λ queue. queue.results.items };
}

impl ResultQueue {
    /// A queue without results, which takes memory from `alloc` once there are some.
    pub fn new(alloc: Global) -> ResultQueue
        ensures { result ≡ [] }
    {
        ResultQueue {
            results: VecDeque::new(alloc),
        }
    }

    /// Puts a result at the end. After want of memory nothing is said of the queue.
    pub fn push(&mut self, answer: SubmitResult) -> Result<(), AllocError>
        ensures ok { OnOk result (self.new ≡ self.old ++ answer ∷ []) }
    {
        self.results.push_back(answer)?;
        Ok(())
    }

    /// Takes the first result out; None where the queue is empty.
    pub fn pop(&mut self) -> Option<SubmitResult>
        ensures some { IfSome result (λ first. self.old ≡ first ∷ self.new) }
        ensures none { IfNone result (self.old ≡ []) }
    {
        self.results.pop_front()
    }
}
