//! The lines that wait to be written for an operator.

ghost use Rattle.std.specs.Prelude.{◌≡◌, ◌⊎◌, ◌≤◌, [], false, length, true};
ghost use Rattle.serve_sessions.specs.Lines.{after_next, is_idle, next, with_line, with_loss};

use std::alloc::Global;
use std::collections::VecDeque;
use std::marker::Model;

/// What comes next for who writes lines.
#[derive(Drop)]
pub(crate) enum Told {
    Line(String),
    /// So many lines were lost.
    Lost(u64),
    /// Nothing, now and later.
    End,
}

/// The lines that wait to be written, the oldest first; how many were not told, since too many waited or there was no memory; and whether none comes any more.
/// A line is told, or counted.
#[derive(Drop)]
pub(crate) struct Lines {
    waiting: VecDeque<String>,
    lost: u64,
    is_shut: bool,
}

impl Model for Lines {
    ghost use Rattle.serve_sessions.specs.Lines.{Lines};

    ghost Value = { Lines };

    ghost view = { λ lines. record { waiting = lines.waiting.items; lost = lines.lost; is_shut = lines.is_shut } };
}

impl Lines {
    /// None waits, and none was lost.
    pub(crate) fn none(alloc: Global) -> Lines
        ensures { result ≡ record { waiting = []; lost = 0; is_shut = false } }
    {
        Lines {
            waiting: VecDeque::new(alloc),
            lost: 0,
            is_shut: false,
        }
    }

    /// Whether who writes has to wait.
    pub(crate) fn is_idle(&self) -> bool
        ensures { result ≡ is_idle self.now }
    {
        self.waiting.is_empty() && self.lost == 0 && !self.is_shut
    }

    /// Puts a line behind the others. It is lost if so many wait, or if there is no memory.
    pub(crate) fn put(&mut self, line: String, most: usize)
        ensures told { (self.new ≡ with_line self.old line) ⊎ (self.new ≡ with_loss self.old) }
        ensures many { most ≤ length self.old.waiting → self.new ≡ with_loss self.old }
    {
        if self.waiting.len() >= most {
            drop(line);
            self.lose();
            return;
        }
        if self.waiting.push_back(line).is_err() {
            self.lose();
        }
    }

    /// Another line is lost.
    pub(crate) fn lose(&mut self)
        ensures { self.new ≡ with_loss self.old }
    {
        self.lost = self.lost.saturating_add(1);
    }

    /// What comes next: how many lines were lost, if some were, before the next line. End if there is neither.
    pub(crate) fn next(&mut self) -> Told
        ensures next { result ≡ next self.old }
        ensures after { self.new ≡ after_next self.old }
    {
        let lost = self.lost;
        self.lost = 0;
        if lost > 0 {
            return Told::Lost(lost);
        }
        match self.waiting.pop_front() {
            Some(line) => Told::Line(line),
            None => Told::End,
        }
    }

    /// No line comes any more.
    pub(crate) fn shut(&mut self)
        ensures { self.new ≡ record self.old { is_shut = true } }
    {
        self.is_shut = true;
    }
}
