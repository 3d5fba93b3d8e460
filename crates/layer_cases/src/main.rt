//! Reads cases of the layers from standard input, one a line, and writes what the layers answer. A line of the word `layer` and a
//! layer's name says which layer answers the lines behind it, and is written again. What a layer's lines say stands in its own file.
#![tactic(auto)]

mod answer;
mod bench;
mod check;
mod form;
mod layer;
mod layers;
mod load;
mod run;
mod sharing;
mod tree;
mod words;
mod world;

use futures::test::MockTask;
use layers::Layers;
use std::alloc::AllocGlobal;
use std::io;
use std::random::RandomSource;
use std::sync::Wait;
use std::thread::Threads;

fn main(rt: HostRuntime) -> io::Result<()> {
    let task = MockTask::new(&rt)?;
    let mut layers = Layers::new(rt.alloc())?;
    answer_lines(&rt, &task, &mut layers)
}

fn answer_lines<R: Threads + Wait + Sync + RandomSource + AllocGlobal + Input + Print>(
    rt: &R,
    task: &MockTask,
    layers: &mut Layers,
) -> io::Result<()> {
    for line in rt.lines(rt.alloc()) {
        let line = line?;
        let answer = layers.answer(rt, task, line.as_str())?;
        print!(rt; "{answer}")?;
    }
    Ok(())
}
