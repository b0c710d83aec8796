// The steps of a trace, each with its line.
ghost use Rattle.std.specs.Prelude.{◌≡◌, ◌≤◌, ◌==◌, length, slice_get, OnOk, OnErr};
ghost use Rattle.bus_audit.specs.Answers.{steps_of};
ghost use Rattle.bus_audit.specs.PlainSteps.{HasByte, HaveBytes};
ghost use Rattle.bus_audit.specs.TraceText.{no_line, with_none, with_step};

use super::step::{TraceStep, TraceWhat};
use std::alloc::{AllocError, Global};
use std::marker::Model;

/// A line of a trace that tells of a bus step. Lines are counted from 1, those that tell of none too.
#[derive(Clone, Copy, Debug, PartialEq, Eq)]
pub struct ToldLine {
    pub line: u32,
    pub step: TraceStep,
}

/// The bus steps of a trace, each with its line, and the line behind the last one of the text. Contracts see a `Trace`.
#[derive(Debug, Drop)]
pub struct TraceList {
    told: Vec<ToldLine>,
    after: u32,
}

impl Model for TraceList {
    ghost use Rattle.bus_audit.specs.Answers.{Trace, steps_of};
    ghost use Rattle.bus_audit.specs.PlainSteps.{HaveBytes};

    ghost Value = { Trace };

    ghost view = { λ t. record { told = t.told.items; after = t.after } };

    ghost invariant = { λ t. HaveBytes (steps_of t.told.items) };
}

impl TraceList {
    /// No line has been read. This takes no memory.
    pub(crate) fn new(alloc: Global) -> TraceList
        ensures { result ≡ no_line }
    {
        TraceList {
            told: Vec::new(alloc),
            after: 1,
        }
    }

    /// One line more, which tells of no step.
    pub(crate) fn skip_line(&mut self)
        requires room { self.old.after ≤ 16777216 }
        ensures { self.new ≡ with_none self.old }
    {
        self.after += 1;
    }

    /// One line more, which tells of a step.
    ///
    /// # Errors
    ///
    /// Memory is missing.
    pub(crate) fn push(&mut self, step: TraceStep) -> Result<(), AllocError>
        requires room { self.old.after ≤ 16777216 }
        ensures ok { OnOk result (self.new ≡ with_step self.old step) }
        ensures err { OnErr result (self.new ≡ self.old) }
    {
        byte_law(step.what);
        let line = self.after;
        self.told.push(ToldLine { line, step })?;
        self.after += 1;
        Ok(())
    }

    /// The lines that tell of steps, in the order of the text.
    pub fn told(&self) -> &[ToldLine]
        ensures value { result.now ≡ self.now.told }
        ensures bytes { HaveBytes (steps_of self.now.told) }
    {
        self.told.as_slice()
    }

    /// The line of the step that has so many before it, and `None` behind the last.
    pub fn get(&self, at: usize) -> Option<ToldLine>
        ensures { result ≡ slice_get self.now.told at }
    {
        self.told.get(at).copied()
    }

    /// There is no step.
    pub fn is_empty(&self) -> bool
        ensures { result ≡ (length self.now.told == 0) }
    {
        self.told.is_empty()
    }

    /// The line behind the last one of the text.
    pub fn after(&self) -> u32
        ensures { result ≡ self.now.after }
    {
        self.after
    }
}

/// The byte of a step is one. This call does nothing; its contract is the law.
fn byte_law(what: TraceWhat)
    ensures { HasByte what }
{}
