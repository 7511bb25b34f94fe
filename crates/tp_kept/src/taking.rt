//! Lines are taken: they are put into the journal, and then answered.
ghost use Rattle.std.specs.Prelude.{◌≡◌, ◌<◌, ◌+◌, ◌^◌, ◌++◌, ℕ, [], All, None, Some, Ok, OnErr, OnOk, IfOk, length};
ghost use Rattle.std.specs.List.{list_all};
ghost use Rattle.std.specs.Prelude.{false, true};
ghost use Rattle.std.specs.Option.{is_some};
ghost use Rattle.tp_journal.specs.Journal.{IsJournalSettled};
ghost use Rattle.tp_journal.specs.Text.{IsBatch, text_of};
ghost use Rattle.tp_kept.specs.Kept.{IsKept, IsReady, KeepsLife, Takes, can_wait, counted_behind, life, lines_in, talk};
ghost use Rattle.tp_kept.specs.Lines.{IsTheirs, IsWhole, empty_lines, ended};
ghost use Rattle.tp_session.specs.Asking.{only_asks};
ghost use Rattle.tp_kept.specs.declared.taking.TheConstants.{MOST_ASKED};
ghost use Rattle.tp_kept.specs.Lives.{answers_of, goes_on, is_restored_in, life_of};
ghost use Rattle.tp_session.specs.Conversed.{step_of};
ghost use Rattle.tp_wire.specs.Heard.{heard};

use crate::cause::{Cause, cause_of};
use crate::kept::Kept;
use crate::leading::{Unled, first_line, lead};
use crate::lines::{end, given, put};
use crate::shortening::LEAST_ROOM;
use std::alloc::{AllocError, Global};
use tp_journal::{Device, FIRST_LINE, Journal};
use tp_session::Session;

/// The most lines that clients may have sent, and the most bytes that are taken at once, so that numbers of
/// lines have 64 bits: 2 ^ 63, and 2 ^ 62.
const MOST_LINES: u64 = 9_223_372_036_854_775_808;

const MOST_BYTES: u64 = 4_611_686_018_427_387_904;

/// How many lines that only asked aren't put down: behind as many the next ones are, whatever they say.
const MOST_ASKED: u64 = 1_048_576;

/// Answers these lines, behind so many: how many they were with these.
fn answer_all(
    alloc: Global,
    session: &mut Session,
    counted: &mut u64,
    lines: &[u8],
    answers: &mut Vec<u8>,
) -> Result<(), AllocError>
    requires whole { IsWhole lines.now }
    requires few { counted.old + length lines.now < 2 ^ 64 }
    ensures all { OnOk result (session.new ≡ (step_of counted.old lines.now session.old).1) }
    ensures counted { OnOk result (counted.new ≡ counted.old + length (heard lines.now)) }
    ensures fits { counted.new < 2 ^ 64 }
    ensures told { OnOk result
        (answers.new.items ≡ answers.old.items ++ (step_of counted.old lines.now session.old).0) }
{
    let mut rest = lines;
    while let Some((line, others)) = first_line(rest) {
        let text = session.answer(alloc, *counted + 1, line)?;
        *counted += 1;
        rest = others;
        answers.extend_from_slice(text.as_slice())?;
    }
    Ok(())
}

/// Whether each of these lines only asks.
#[tactic(auto, using(crate::proofs::AskLemmas::all_step, crate::proofs::AskLemmas::all_stop))]
fn all_ask(alloc: Global, session: &Session, lines: &[u8]) -> Result<bool, AllocError>
    requires whole { IsWhole lines.now }
    ensures is { IfOk result (λ all. all ≡ list_all (λ l. only_asks l session.now) (heard lines.now)) }
    ensures stays { result ≡ Ok true
        → (past : ℕ) → (step_of past lines.now session.now).1 ≡ session.now }
{
    let mut rest = lines;
    while let Some((line, others)) = first_line(rest) {
        if !session.only_asks(alloc, line)? {
            return Ok(false);
        }
        rest = others;
    }
    Ok(true)
}

/// So many empty lines, and these behind them.
#[tactic(auto, unfolding(crate::specs::Lines::empty_lines))]
fn behind_empty_lines(alloc: Global, count: u64, lines: &[u8]) -> Result<Vec<u8>, AllocError>
    ensures { IfOk result (λ all. all.items ≡ empty_lines count ++ lines.now) }
{
    let mut all = Vec::new(alloc);
    for _ in 0..count {
        all.push(b'\n')?;
    }
    all.extend_from_slice(lines)?;
    Ok(all)
}

impl<D: Device + Drop> Kept<D> {
    /// A session that stands where the lines of its journal lead to. This is the journal's text.
    pub fn new(alloc: Global, journal: Journal<D>, text: &[u8]) -> Result<Kept<D>, Unled>
        requires settled { IsJournalSettled D.seen D.may_leave journal }
        requires fine { journal.poisoned ≡ false }
        requires text { text.now ≡ text_of (D.seen journal.device) }
        ensures led { IfOk result (λ kept. life_of (lines_in text.now) ≡ Some (life kept)) }
        ensures restored { OnOk result (is_restored_in (heard (lines_in text.now)) ≡ true) }
        ensures no_line { IfOk result (λ kept. kept.line.items ≡ []) }
        ensures none_asked { IfOk result (λ kept. kept.asked ≡ 0) }
        ensures goes_on { IfOk result (λ kept. kept.cause ≡ None) }
        ensures is_ready { IfOk result (IsReady D.seen D.may_leave) }
    {
        let lines = given(alloc, &text[FIRST_LINE.len()..])?;
        let led = lead(alloc, &lines)?;
        Ok(Kept {
            alloc,
            journal,
            session: led.session,
            counted: led.counted,
            asked: 0,
            line: Vec::new(alloc),
            behind: led.behind,
            room: lines.len().saturating_sub(led.behind).max(LEAST_ROOM),
            cause: None,
        })
    }

    /// For how many lines of clients the journal stands: all up to the last one that was put down. Those behind
    /// it only asked.
    pub fn recovered(&self) -> u64
        ensures { result ≡ self.now.counted }
    {
        self.counted
    }

    /// Why nothing more is done, if so.
    pub fn cause(&self) -> Option<Cause>
        ensures { result ≡ self.now.cause }
    {
        self.cause
    }

    /// Puts lines into the journal.
    fn append(&mut self, lines: &[u8]) -> Result<(), Cause>
        requires kept { IsKept D.seen D.may_leave self.old.journal (life self.old) }
        requires fine { self.old.cause ≡ None }
        requires batch { IsBatch lines.now }
        requires theirs { All IsTheirs lines.now }
        ensures kept { OnOk result
            (IsKept D.seen D.may_leave self.new.journal (goes_on lines.now (life self.old))) }
        ensures keeps { KeepsLife (D.may_leave self.new.journal.device) (life self.old) }
        ensures cause { OnErr result (is_some self.new.cause ≡ true) }
        ensures same { OnOk result ((life self.new ≡ life self.old) × (self.new.cause ≡ self.old.cause)) }
        ensures asked { self.new.asked ≡ self.old.asked }
        ensures line { self.new.line ≡ self.old.line }
    {
        match self.journal.append(self.alloc, lines) {
            Ok(()) => {
                self.behind = self.behind.saturating_add(lines.len());
                Ok(())
            }
            Err(error) => {
                let cause = cause_of(error);
                self.cause = Some(cause);
                Err(cause)
            }
        }
    }

    /// Whether lines need not be put down yet.
    #[tactic(auto, using(crate::proofs::AskLemmas::none_stays))]
    fn can_wait(&self, lines: &[u8]) -> Result<bool, AllocError>
        requires whole { IsWhole lines.now }
        ensures is { IfOk result (λ can. can ≡ can_wait lines.now self.now) }
        ensures stays { result ≡ Ok true
            → (past : ℕ) → (step_of past lines.now self.now.session).1 ≡ self.now.session }
    {
        if self.asked >= MOST_ASKED {
            return Ok(lines.is_empty());
        }
        all_ask(self.alloc, &self.session, lines)
    }

    /// Answers lines.
    fn perform(&mut self, lines: &[u8]) -> Result<Vec<u8>, Cause>
        requires whole { IsWhole lines.now }
        requires few { (self.old.counted + self.old.asked) + length lines.now < 2 ^ 64 }
        requires fine { self.old.cause ≡ None }
        ensures leads { OnOk result (talk self.new ≡ goes_on lines.now (talk self.old)) }
        ensures answers { IfOk result (λ text. text.items
            ≡ (step_of (self.old.counted + self.old.asked) lines.now self.old.session).0) }
        ensures fits { OnOk result (self.new.counted + self.new.asked < 2 ^ 64) }
        ensures fine { OnOk result (self.new.cause ≡ None) }
        ensures cause { OnErr result (is_some self.new.cause ≡ true) }
        ensures same { (self.new.journal ≡ self.old.journal) × (self.new.counted ≡ self.old.counted)
            × (self.new.line ≡ self.old.line) }
    {
        let mut answers = Vec::new(self.alloc);
        let mut number = self.counted + self.asked;
        match answer_all(
            self.alloc,
            &mut self.session,
            &mut number,
            lines,
            &mut answers,
        ) {
            Ok(()) => {
                self.asked = number - self.counted;
                Ok(answers)
            }
            Err(_) => {
                self.cause = Some(Cause::NoMemory);
                Err(Cause::NoMemory)
            }
        }
    }

    /// Puts lines into the journal, behind an empty one for each that only asked, and answers them.
    fn put_and_perform(&mut self, lines: &[u8]) -> Result<Vec<u8>, Cause>
        requires kept { IsKept D.seen D.may_leave self.old.journal (life self.old) }
        requires few { (self.old.counted + self.old.asked) + length lines.now < 2 ^ 64 }
        requires fine { self.old.cause ≡ None }
        requires batch { IsBatch lines.now }
        requires theirs { All IsTheirs lines.now }
        ensures kept { OnOk result (IsKept D.seen D.may_leave self.new.journal (life self.new)) }
        ensures leads { OnOk result (talk self.new ≡ goes_on lines.now (talk self.old)) }
        ensures none_asked { OnOk result (self.new.asked ≡ 0) }
        ensures answers { IfOk result (λ text. text.items
            ≡ (step_of (self.old.counted + self.old.asked) lines.now self.old.session).0) }
        ensures fine { OnOk result (self.new.cause ≡ None) }
        ensures keeps { KeepsLife (D.may_leave self.new.journal.device) (life self.old) }
        ensures cause { OnErr result (is_some self.new.cause ≡ true) }
        ensures line { self.new.line ≡ self.old.line }
    {
        let Ok(batch) = behind_empty_lines(self.alloc, self.asked, lines) else {
            self.cause = Some(Cause::NoMemory);
            return Err(Cause::NoMemory);
        };
        self.append(&batch)?;
        let answers = self.perform(lines)?;
        self.counted += self.asked;
        self.asked = 0;
        Ok(answers)
    }

    /// Answers lines, which are in the journal before, unless each of them only asks.
    fn answer(&mut self, lines: &[u8]) -> Result<Vec<u8>, Cause>
        requires kept { IsKept D.seen D.may_leave self.old.journal (life self.old) }
        requires fine { self.old.cause ≡ None }
        requires batch { IsBatch lines.now }
        requires theirs { All IsTheirs lines.now }
        ensures kept { OnOk result (IsKept D.seen D.may_leave self.new.journal (life self.new)) }
        ensures leads { OnOk result (talk self.new ≡ goes_on lines.now (talk self.old)) }
        ensures counted { OnOk result (self.new.counted ≡ counted_behind lines.now self.old) }
        ensures answers { IfOk result (λ text. text.items
            ≡ (step_of (self.old.counted + self.old.asked) lines.now self.old.session).0) }
        ensures fine { OnOk result (self.new.cause ≡ None) }
        ensures keeps { KeepsLife (D.may_leave self.new.journal.device) (life self.old) }
        ensures cause { OnErr result (is_some self.new.cause ≡ true) }
        ensures line { self.new.line ≡ self.old.line }
    {
        if self.counted >= MOST_LINES
            || self.asked >= MOST_BYTES
            || lines.len() >= MOST_BYTES as usize
        {
            self.cause = Some(Cause::NoMemory);
            return Err(Cause::NoMemory);
        }
        match self.can_wait(lines) {
            Ok(true) => self.perform(lines),
            Ok(false) => self.put_and_perform(lines),
            Err(_) => {
                self.cause = Some(Cause::NoMemory);
                Err(Cause::NoMemory)
            }
        }
    }

    /// Takes bytes of a client: the lines that end in them are put into the journal, and then performed.
    /// Answers what they are answered. Behind an error nothing more is taken.
    pub fn take(&mut self, bytes: &[u8]) -> Result<Vec<u8>, Cause>
        requires ready { IsReady D.seen D.may_leave self.old }
        ensures ready { IsReady D.seen D.may_leave self.new }
        ensures takes { IfOk result (λ text. Takes bytes.now text.items self.old self.new) }
        ensures fine { OnOk result (self.new.cause ≡ None) }
        ensures keeps { self.old.cause ≡ None
            → KeepsLife (D.may_leave self.new.journal.device) (life self.old) }
        ensures cause { OnErr result (is_some self.new.cause ≡ true) }
    {
        if let Some(cause) = self.cause {
            return Err(cause);
        }
        let mut lines = Vec::new(self.alloc);
        let Ok(()) = put(&mut self.line, bytes, &mut lines) else {
            self.cause = Some(Cause::NoMemory);
            return Err(Cause::NoMemory);
        };
        let ended = lines.as_slice();
        if ended.is_empty() {
            return Ok(lines);
        }
        let answers = self.answer(ended)?;
        Ok(answers)
    }

    /// Takes the end of the input: what was taken of a last line is performed as a whole one, and the final
    /// lines are told. Answers what is told.
    pub fn finish(&mut self) -> Result<Vec<u8>, Cause>
        requires ready { IsReady D.seen D.may_leave self.old }
        ensures ready { IsReady D.seen D.may_leave self.new }
        ensures answers { IfOk result (λ text.
            text.items ≡ answers_of (ended self.old.line.items) (talk self.old)) }
        ensures leads { OnOk result (talk self.new ≡ goes_on (ended self.old.line.items) (talk self.old)) }
        ensures fine { OnOk result (self.new.cause ≡ None) }
        ensures keeps { self.old.cause ≡ None
            → KeepsLife (D.may_leave self.new.journal.device) (life self.old) }
        ensures cause { OnErr result (is_some self.new.cause ≡ true) }
    {
        if let Some(cause) = self.cause {
            return Err(cause);
        }
        let mut text = self.take_last()?;
        let told = match self.session.finals(self.alloc) {
            Ok(finals) => text.extend_from_slice(finals.as_bytes()),
            Err(error) => Err(error),
        };
        match told {
            Ok(()) => Ok(text),
            Err(_) => {
                self.cause = Some(Cause::NoMemory);
                Err(Cause::NoMemory)
            }
        }
    }

    /// Takes what there is of a last line as a whole one.
    fn take_last(&mut self) -> Result<Vec<u8>, Cause>
        requires ready { IsReady D.seen D.may_leave self.old }
        requires fine { self.old.cause ≡ None }
        ensures ready { IsReady D.seen D.may_leave self.new }
        ensures answers { IfOk result (λ text. text.items
            ≡ (step_of (self.old.counted + self.old.asked) (ended self.old.line.items) self.old.session).0) }
        ensures leads { OnOk result (talk self.new ≡ goes_on (ended self.old.line.items) (talk self.old)) }
        ensures fine { OnOk result (self.new.cause ≡ None) }
        ensures keeps { KeepsLife (D.may_leave self.new.journal.device) (life self.old) }
        ensures cause { OnErr result (is_some self.new.cause ≡ true) }
    {
        let mut lines = Vec::new(self.alloc);
        if self.line.is_empty() {
            return Ok(lines);
        }
        let Ok(()) = end(&mut self.line, &mut lines) else {
            self.cause = Some(Cause::NoMemory);
            return Err(Cause::NoMemory);
        };
        self.answer(&lines)
    }
}
