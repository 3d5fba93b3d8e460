//! Answers.
use fixtures::{fault_text, put_line};
use ledger_terms::{Action, ActionNodeList, Name, ParticipantId, Path, Topology, Value};
use report_text::{put_action, put_host, put_names, put_number, put_path, put_trees, put_value};
use script_read::ScriptFault;
use std::alloc::{AllocError, Global};

/// The text that answers a line. Its methods put what they name at its end. Want of memory is noted here and told by `finish`, so that its writers
/// needn't pass it on.
#[derive(Drop)]
pub(crate) struct Answer {
    alloc: Global,
    text: String,
    lacks: bool,
}

impl Answer {
    pub(crate) fn new(alloc: Global) -> Answer {
        Answer {
            alloc,
            text: String::new(alloc),
            lacks: false,
        }
    }

    /// The text. Err: memory was wanting for some of it.
    pub(crate) fn finish(self) -> Result<String, AllocError> {
        let Answer { text, lacks, .. } = self;
        if lacks { Err(AllocError) } else { Ok(text) }
    }

    /// Notes that memory was wanting.
    pub(crate) fn lack(&mut self) {
        self.lacks = true;
    }

    /// Notes that memory was wanting, where `done` is an Err.
    pub(crate) fn keep(&mut self, done: Result<(), AllocError>) {
        if done.is_err() {
            self.lacks = true;
        }
    }

    /// Puts a text at the end.
    pub(crate) fn put(&mut self, text: &str) {
        let put = self.text.push_str(text);
        self.keep(put);
    }

    /// Puts words and a line feed at the end, a space between words.
    pub(crate) fn line(&mut self, words: &[&str]) {
        let put = put_line(&mut self.text, words);
        self.keep(put);
    }

    /// Puts a number at the end.
    pub(crate) fn number(&mut self, number: u64) {
        let put = put_number(&mut self.text, number);
        self.keep(put);
    }

    /// Puts bytes at the end, as hexadecimal digits.
    pub(crate) fn digits(&mut self, bytes: &[u8]) {
        match hex::encode(self.alloc, bytes) {
            Ok(digits) => self.put(digits.as_str()),
            Err(_) => self.lack(),
        }
    }

    /// Puts a path at the end, its steps joined by points.
    pub(crate) fn path(&mut self, path: &Path) {
        let put = put_path(&mut self.text, path);
        self.keep(put);
    }

    /// Puts names at the end, with commas between them.
    pub(crate) fn names(&mut self, names: &[Name]) {
        let put = put_names(&mut self.text, names);
        self.keep(put);
    }

    /// Puts the name of a participant at the end.
    pub(crate) fn host(&mut self, topology: &Topology, at: ParticipantId) {
        let put = put_host(&mut self.text, &topology.hosts, at);
        self.keep(put);
    }

    /// Puts a value at the end.
    pub(crate) fn value(&mut self, value: &Value) {
        let put = put_value(&mut self.text, value);
        self.keep(put);
    }

    /// Puts an action at the end.
    pub(crate) fn action(&mut self, action: &Action) {
        let put = put_action(&mut self.text, action);
        self.keep(put);
    }

    /// Puts a line for each action of trees at the end, as a report has it.
    pub(crate) fn trees(&mut self, trees: &ActionNodeList) {
        let put = put_trees(&mut self.text, 1, trees);
        self.keep(put);
    }

    /// Puts a word and `yes` or `no` at the end of a line.
    pub(crate) fn truth(&mut self, word: &str, truth: Result<bool, AllocError>) {
        match truth {
            Ok(true) => self.line(&[word, "yes"]),
            Ok(false) => self.line(&[word, "no"]),
            Err(_) => self.lack(),
        }
    }

    /// Puts the first fault of a script at the end.
    pub(crate) fn fault(&mut self, fault: &ScriptFault) {
        match fault_text(self.alloc, fault) {
            Ok(text) => self.line(&[text.as_str()]),
            Err(_) => self.lack(),
        }
    }
}
