//! The state of a run of `paths`, and its answers.

ghost use Rattle.std.specs.Prelude.{◌≡◌, ◌≢◌, ◌++◌, [], ℕ, List, IfOk, OnOk, true, false};
ghost use Rattle.path_count.specs.Asked.{operations, start, finish};
ghost use Rattle.path_count.specs.Words.{words};

use crate::counters::{Counters, compile};
use crate::paths::calls::{finish_operation, start_operation};
use crate::paths::command::{Command, command_of};
use crate::paths::operations::Operations;
use crate::paths::path_line::{PathLine, push_line_fault, read_path_line};
use path_tree::node::OpId;
use path_tree::print::print_path;
use path_tree::tree::PathTree;
use std::alloc::{AllocError, Global};
use value_core::Machine;
use value_core::reply::{push_count, push_reply};

/// The most paths of a run.
pub const MOST_PATHS: usize = 16;

/// What the lines of a run have told so far.
#[derive(Drop)]
pub struct Paths {
    alloc: Global,
    operations: Operations,
    paths: Vec<PathTree>,
    // Whether a start or a finish has come; then the counters are those of the paths.
    begun: bool,
    counters: Counters,
}

impl Paths {
    ghost use Rattle.path_count.specs.Telling.{Stands, Gives, PathsGives, GivesPath};
    ghost use Rattle.path_count.specs.Told.{Told, nothing_told};

    /// The state before the first line.
    pub fn new(alloc: Global) -> Result<Paths, AllocError>
        ensures { IfOk result (λ state. Stands state nothing_told) }
    {
        let counters = compile(alloc, &[], 0)?;
        Ok(Paths {
            alloc,
            operations: Operations::none(alloc),
            paths: Vec::new(alloc),
            begun: false,
            counters,
        })
    }

    // Answers line 1, with the text behind its first word.
    fn name_operations(
        &mut self,
        number: u64,
        text: &[u8],
        out: &mut Vec<u8>,
    ) -> Result<bool, AllocError>
        ensures { IfOk result (λ goes. (told : List ℕ) × (out.new.items ≡ out.old.items ++ told)
            × Gives (operations (words text.now)) self.old number told goes self.new) }
    {
        if !self.operations.names().is_empty() {
            push_count(out, b"bad line ", number)?;
            return Ok(false);
        }
        match Operations::read(self.alloc, text)? {
            Some(operations) => {
                push_count(out, b"ops ", operations.names().len() as u64)?;
                self.operations = operations;
                Ok(true)
            }
            None => {
                push_count(out, b"bad line ", number)?;
                Ok(false)
            }
        }
    }

    // Answers a line that begins with `path`.
    fn take_path(&mut self, number: u64, line: &[u8], out: &mut Vec<u8>) -> Result<bool, AllocError>
        ensures { IfOk result (λ goes. (text : List ℕ) × (out.new.items ≡ out.old.items ++ text)
            × GivesPath line.now self.old number text goes self.new) }
    {
        if self.operations.names().is_empty() || self.begun || self.paths.len() >= MOST_PATHS {
            push_count(out, b"bad line ", number)?;
            return Ok(false);
        }
        match read_path_line(self.alloc, line, self.operations.names())? {
            PathLine::Path(path) => {
                let text = print_path(self.alloc, &path, self.operations.names())?;
                push_reply(out, &text, b"")?;
                self.paths.push(path)?;
                Ok(true)
            }
            PathLine::Refused(fault) => {
                push_line_fault(out, number, fault)?;
                Ok(false)
            }
        }
    }

    // Makes the counters of the paths, where the first start or finish has come.
    #[inline]
    fn begin(&mut self) -> Result<(), AllocError>
        ensures begun { OnOk result ((told : Told) → Stands self.old told → told.names ≢ [] →
            Stands self.new (record told { begun = true })) }
        ensures names { self.new.operations ≡ self.old.operations }
    {
        if !self.begun {
            self.counters = compile(
                self.alloc,
                &self.paths,
                self.operations.names().len() as OpId,
            )?;
            self.begun = true;
        }
        Ok(())
    }

    // Answers a start.
    fn start(&mut self, number: u64, word: &[u8], out: &mut Vec<u8>) -> Result<bool, AllocError>
        ensures { IfOk result (λ goes. (text : List ℕ) × (out.new.items ≡ out.old.items ++ text)
            × Gives (start word.now) self.old number text goes self.new) }
    {
        match self.operations.find(word) {
            Some(op) => {
                self.begin()?;
                start_operation(&mut self.counters, op, self.operations.name(op), out)?;
                Ok(true)
            }
            None => {
                push_count(out, b"bad line ", number)?;
                Ok(false)
            }
        }
    }

    // Answers a finish.
    fn finish(&mut self, number: u64, word: &[u8], out: &mut Vec<u8>) -> Result<bool, AllocError>
        ensures { IfOk result (λ goes. (text : List ℕ) × (out.new.items ≡ out.old.items ++ text)
            × Gives (finish word.now) self.old number text goes self.new) }
    {
        match self.operations.find(word) {
            Some(op) => {
                self.begin()?;
                finish_operation(&mut self.counters, op, self.operations.name(op), out)?;
                Ok(true)
            }
            None => {
                push_count(out, b"bad line ", number)?;
                Ok(false)
            }
        }
    }
}

impl Machine for Paths {
    ghost use Rattle.path_count.specs.Telling.{PathsGives};

    ghost gives = { PathsGives };

    fn answer(&mut self, number: u64, line: &[u8], out: &mut Vec<u8>) -> Result<bool, AllocError> {
        match command_of(line) {
            Command::Operations(text) => {
                let goes = self.name_operations(number, text, out)?;
                Ok(goes)
            }
            Command::Path => {
                let goes = self.take_path(number, line, out)?;
                Ok(goes)
            }
            Command::Start(word) => {
                let goes = self.start(number, word, out)?;
                Ok(goes)
            }
            Command::Finish(word) => {
                let goes = self.finish(number, word, out)?;
                Ok(goes)
            }
            Command::Other => {
                push_count(out, b"bad line ", number)?;
                Ok(false)
            }
        }
    }
}
