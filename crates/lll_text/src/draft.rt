//! What the lines so far say, and what one more line adds to it.

ghost use Rattle.std.specs.Prelude.{◌≡◌, ◌+◌, ◌<◌, ◌≤◌, ◌∷◌, ◌++◌, [], ℕ, List, length, IfOk, OnOk};
ghost use Rattle.lll_core.specs.Signals.{signal_names};
ghost use Rattle.lll_text.specs.Fields.{Gives};
ghost use Rattle.lll_text.specs.Lines.{no_lines, header_line_at, next_signal_at, literal_line_at, assume_line_at, keep_line_at, entry_at, is_empty, may_stand, constraint_at, obligation_at, naming_at, after_word, list_line_at};

use crate::fault::{LllKind, Unread};
use crate::field::{after, due, line_end, literal, name};
use crate::names::Names;
use crate::signal::signal_line;
use hll_lexer::Word;
use lll_core::{Named, Signal};
use sqlite_items::Items;
use std::alloc::Global;

/// What is due next.
#[derive(Clone, Copy, Debug, PartialEq, Eq)]
pub enum Stage {
    Header,
    Signals,
    Keep,
    Lists,
    End,
}

/// A line of the lists after `keep`, or the last line.
#[derive(Clone, Copy, Debug, PartialEq, Eq)]
pub enum Entry {
    Constraint,
    Obligation,
    Name,
    End,
}

/// What the lines so far say.
#[derive(Debug, Drop)]
pub struct Draft {
    pub stage: Stage,
    pub signals: Items<Signal>,
    pub assume: u32,
    pub keep: u32,
    pub constraints: Items<u32>,
    pub obligations: Items<u32>,
    pub names: Items<Named>,
}

impl Draft {
    pub(crate) fn new(alloc: Global) -> Draft
        ensures { result ≡ no_lines }
    {
        Draft {
            stage: Stage::Header,
            signals: Items::new(alloc),
            assume: 0,
            keep: 0,
            constraints: Items::new(alloc),
            obligations: Items::new(alloc),
            names: Items::new(alloc),
        }
    }

    /// The first line.
    #[tactic(auto, unfolding(crate::specs::Lines::header_line_at))]
    pub(crate) fn header_line<'a>(&mut self, text: &'a [u8]) -> Result<&'a [u8], Unread>
        ensures exact { Gives (λ r. (self.new, r.now)) result (header_line_at self.old text.now) }
        ensures signals { OnOk result (self.new.signals ≡ self.old.signals) }
        ensures shorter { IfOk result (λ r. length r.now < length text.now) }
    {
        let rest = due(text, b"lll 1", LllKind::Word)?;
        let rest = line_end(rest)?;
        self.stage = Stage::Signals;
        Ok(rest)
    }

    /// The line of one more signal.
    #[tactic(auto, unfolding(crate::specs::Lines::next_signal_at))]
    pub(crate) fn next_signal<'a>(
        &mut self,
        alloc: Global,
        names: &mut Names<'a>,
        text: &'a [u8],
    ) -> Result<&'a [u8], Unread>
        requires { names.old ≡ signal_names self.old.signals }
        ensures exact { Gives (λ r. (self.new, r.now)) result (next_signal_at self.old text.now) }
        ensures names { OnOk result (names.new ≡ signal_names self.new.signals) }
        ensures shorter { IfOk result (λ r. length r.now < length text.now) }
    {
        let (signal, rest) = signal_line(alloc, self.signals.len(), names, text)?;
        self.signals.push(signal)?;
        Ok(rest)
    }

    /// What is assumed.
    #[tactic(auto, unfolding(crate::specs::Lines::assume_line_at))]
    pub(crate) fn assume_line<'a>(&mut self, text: &'a [u8]) -> Result<&'a [u8], Unread>
        ensures exact { Gives (λ r. (self.new, r.now)) result (assume_line_at self.old text.now) }
        ensures signals { OnOk result (self.new.signals ≡ self.old.signals) }
        ensures shorter { IfOk result (λ r. length r.now < length text.now) }
    {
        let (literal, rest) = literal_line(text, b"assume", self.signals.len())?;
        self.stage = Stage::Keep;
        self.assume = literal;
        Ok(rest)
    }

    /// What is kept.
    #[tactic(auto, unfolding(crate::specs::Lines::keep_line_at))]
    pub(crate) fn keep_line<'a>(&mut self, text: &'a [u8]) -> Result<&'a [u8], Unread>
        ensures exact { Gives (λ r. (self.new, r.now)) result (keep_line_at self.old text.now) }
        ensures signals { OnOk result (self.new.signals ≡ self.old.signals) }
        ensures shorter { IfOk result (λ r. length r.now < length text.now) }
    {
        let (literal, rest) = literal_line(text, b"keep", self.signals.len())?;
        self.stage = Stage::Lists;
        self.keep = literal;
        Ok(rest)
    }

    /// Whether such a line may stand after those before it.
    fn may_stand(&self, entry: Entry) -> bool
        ensures { result ≡ may_stand self.now entry }
    {
        match entry {
            Entry::Constraint => self.obligations.is_empty() && self.names.is_empty(),
            Entry::Obligation => self.names.is_empty(),
            Entry::Name => true,
            Entry::End => true,
        }
    }

    #[tactic(auto, unfolding(crate::specs::Lines::constraint_at))]
    fn constraint<'a>(&mut self, text: &'a [u8]) -> Result<&'a [u8], Unread>
        ensures exact { Gives (λ r. (self.new, r.now)) result (constraint_at self.old text.now) }
        ensures signals { OnOk result (self.new.signals ≡ self.old.signals) }
        ensures shorter { IfOk result (λ r. length r.now ≤ length text.now) }
    {
        let (literal, rest) = literal(text, self.signals.len(), LllKind::Number)?;
        self.constraints.push(literal)?;
        Ok(rest)
    }

    #[tactic(auto, unfolding(crate::specs::Lines::obligation_at))]
    fn obligation<'a>(&mut self, text: &'a [u8]) -> Result<&'a [u8], Unread>
        ensures exact { Gives (λ r. (self.new, r.now)) result (obligation_at self.old text.now) }
        ensures signals { OnOk result (self.new.signals ≡ self.old.signals) }
        ensures shorter { IfOk result (λ r. length r.now ≤ length text.now) }
    {
        let (literal, rest) = literal(text, self.signals.len(), LllKind::Number)?;
        self.obligations.push(literal)?;
        Ok(rest)
    }

    #[tactic(auto, unfolding(crate::specs::Lines::naming_at))]
    fn naming<'a>(&mut self, alloc: Global, text: &'a [u8]) -> Result<&'a [u8], Unread>
        ensures exact { Gives (λ r. (self.new, r.now)) result (naming_at self.old text.now) }
        ensures signals { OnOk result (self.new.signals ≡ self.old.signals) }
        ensures shorter { IfOk result (λ r. length r.now ≤ length text.now) }
    {
        let (literal, rest) = literal(text, self.signals.len(), LllKind::Number)?;
        let (name, rest) = name(rest)?;
        let name = Word::new(alloc, name)?;
        self.names.push(Named { name, literal })?;
        Ok(rest)
    }

    /// What stands behind the word of a line.
    fn after_word<'a>(
        &mut self,
        alloc: Global,
        entry: Entry,
        text: &'a [u8],
    ) -> Result<&'a [u8], Unread>
        ensures exact { Gives (λ r. (self.new, r.now)) result (after_word self.old entry text.now) }
        ensures signals { OnOk result (self.new.signals ≡ self.old.signals) }
        ensures shorter { IfOk result (λ r. length r.now ≤ length text.now) }
    {
        match entry {
            Entry::Constraint => self.constraint(text),
            Entry::Obligation => self.obligation(text),
            Entry::Name => self.naming(alloc, text),
            Entry::End => {
                self.stage = Stage::End;
                Ok(text)
            }
        }
    }

    /// A line of the lists, or the last line.
    #[tactic(auto, unfolding(crate::specs::Lines::list_line_at))]
    pub(crate) fn list_line<'a>(
        &mut self,
        alloc: Global,
        text: &'a [u8],
    ) -> Result<&'a [u8], Unread>
        ensures exact { Gives (λ r. (self.new, r.now)) result (list_line_at self.old text.now) }
        ensures signals { OnOk result (self.new.signals ≡ self.old.signals) }
        ensures shorter { IfOk result (λ r. length r.now < length text.now) }
    {
        let (entry, rest) = read_entry(text)?;
        if !self.may_stand(entry) {
            return Err(Unread::Wrong(LllKind::Word));
        }
        let rest = self.after_word(alloc, entry, rest)?;
        line_end(rest)
    }
}

/// A word, a literal that names one of so many signals, and the line's end.
#[tactic(auto, unfolding(crate::specs::Lines::literal_line_at))]
fn literal_line<'a>(text: &'a [u8], word: &[u8], count: usize) -> Result<(u32, &'a [u8]), Unread>
    ensures exact { Gives (λ x. (x.0, x.1.now)) result (literal_line_at word.now count text.now) }
    ensures shorter { IfOk result (λ x. length x.1.now < length text.now) }
{
    let rest = due(text, word, LllKind::Word)?;
    let (literal, rest) = literal(rest, count, LllKind::Number)?;
    let rest = line_end(rest)?;
    Ok((literal, rest))
}

/// The word of a line of the lists.
#[tactic(auto, unfolding(crate::specs::Lines::entry_at))]
fn read_entry(text: &[u8]) -> Result<(Entry, &[u8]), Unread>
    ensures exact { Gives (λ x. (x.0, x.1.now)) result (entry_at text.now) }
    ensures shorter { IfOk result (λ x. length x.1.now ≤ length text.now) }
{
    if let Some(rest) = after(text, b"constraint") {
        return Ok((Entry::Constraint, rest));
    }
    if let Some(rest) = after(text, b"obligation") {
        return Ok((Entry::Obligation, rest));
    }
    if let Some(rest) = after(text, b"name") {
        return Ok((Entry::Name, rest));
    }
    match after(text, b"end") {
        Some(rest) => Ok((Entry::End, rest)),
        None => Err(Unread::Wrong(LllKind::Word)),
    }
}
