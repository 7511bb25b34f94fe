//! What a line says: in the head, and behind it.
ghost use Rattle.std.specs.Prelude.{◌≡◌, ◌&&◌, Result, map, nat_le, vec_len, ℕ, IfOk, IfSome};
ghost use Rattle.std.specs.List.{list_all};
ghost use Rattle.tp_script.specs.declared.fault.LineFault.{LineFault};
ghost use Rattle.tp_script.specs.declared.fault.LineFault.TheVariants.{Syntax};
ghost use Rattle.tp_script.specs.declared.head.Act.{Act};
ghost use Rattle.tp_script.specs.declared.head.Said.{Said};
ghost use Rattle.tp_script.specs.Grammar.{account_at, act_said, asks, body_keyword, body_words, ends_head};
ghost use Rattle.tp_script.specs.Grammar.{head_keyword, head_words, in_head, is_comment, line_words};
ghost use Rattle.tp_script.specs.Grammar.{out_of_order};
ghost use Rattle.tp_script.specs.Keyword.{keyword};
ghost use Rattle.tp_script.specs.LineWords.{known, one_word};
ghost use Rattle.tp_script.specs.Ranges.{IsActInRange, IsSaidInRange};
ghost use Rattle.tp_script.specs.Reading.{Gives};
ghost use Rattle.tp_script.specs.Script.{HeadView, head_view};

use crate::commands::{drain_at, race_said, rollover_at};
use crate::fault::{LineError, LineFault};
use crate::head::{Act, Head, Said};
use crate::keyword::{Keyword, Verb};
use crate::line_words::{none, one, three};
use crate::servers::shape_at;
use crate::text::words;
use std::alloc::Global;

// ---- words

/// The words of a line.
#[tactic(auto, unfolding(crate::specs::Grammar::line_words))]
pub(crate) fn line_words(alloc: Global, line: &[u8]) -> Result<Vec<&[u8]>, LineError>
    ensures { Gives (λ v. map (λ x. x.now) v.items) result (line_words line.now) }
{
    if line.len() > 200 {
        return Err(LineFault::TooLong.into());
    }
    if !all_allowed(line) {
        return Err(LineFault::Syntax.into());
    }
    if is_comment(line) {
        return Ok(Vec::new(alloc));
    }
    Ok(words(alloc, line)?)
}

// The keyword that a word is.
fn first_word(word: &[u8]) -> Result<Keyword, LineError>
    ensures { Gives (λ k. k) result (known (keyword word.now) Syntax) }
{
    match Keyword::of(word) {
        Some(keyword) => Ok(keyword),
        None => Err(LineFault::Syntax.into()),
    }
}

// Whether a line begins with `#`.
fn is_comment(line: &[u8]) -> bool
    ensures { result ≡ is_comment line.now }
{
    line.first() == Some(&b'#')
}

// Whether each byte of a line is a space or visible.
fn all_allowed(line: &[u8]) -> bool
    ensures { result ≡ list_all (λ b. nat_le 32 b && nat_le b 126) line.now }
{
    line.iter().all(|byte| (32..=126).contains(byte))
}

// ---- what is said

// What is asked for as what a line says.
fn asks(read: Result<Act, LineError>) -> Result<Said, LineError>
    ensures gives { (said : Result Act LineFault) → Gives (λ a. a) read said
        → Gives (λ s. s) result (asks said) }
    ensures in_range { (servers : ℕ) → IfOk read (IsActInRange servers)
        → IfOk result (IsSaidInRange servers) }
{
    match read {
        Ok(act) => Ok(Said::Act(act)),
        Err(e) => Err(e),
    }
}

// `account`
fn account_at(words: &[&[u8]]) -> Result<Said, LineError>
    ensures gives { Gives (λ s. s) result (account_at (map (λ x. x.now) words.now)) }
    ensures in_range { (servers : ℕ) → IfOk result (IsSaidInRange servers) }
{
    none(words)?;
    Ok(Said::Account)
}

// A line of the head as an answer to it: it asks for nothing.
fn in_head(read: Result<(), LineError>) -> Result<Option<Said>, LineError>
    ensures gives { (h : HeadView) → (said : Result HeadView LineFault) → Gives (λ _. h) read said
        → Gives (λ s. (h, s)) result (in_head said) }
    ensures in_range { (servers : ℕ) → IfOk result (λ said. IfSome said (IsSaidInRange servers)) }
{
    match read {
        Ok(()) => Ok(None),
        Err(e) => Err(e),
    }
}

// The first command as an answer to its line, which ends the head.
fn ends_head(read: Result<Said, LineError>) -> Result<Option<Said>, LineError>
    ensures gives { (h : HeadView) → (said : Result Said LineFault) → Gives (λ s. s) read said
        → Gives (λ s. (h, s)) result (ends_head h said) }
    ensures in_range { (servers : ℕ) → IfOk read (IsSaidInRange servers)
        → IfOk result (λ said. IfSome said (IsSaidInRange servers)) }
{
    match read {
        Ok(said) => Ok(Some(said)),
        Err(e) => Err(e),
    }
}

// A setting behind the head.
fn late_setting(words: &[&[u8]]) -> Result<Said, LineError>
    ensures gives { Gives (λ s. s) result (out_of_order (one_word (map (λ x. x.now) words.now))) }
    ensures refused { IfOk result (λ _. ⊥) }
{
    one(words)?;
    Err(LineFault::Order.into())
}

impl Head {
    // The command of this first word, with the words after it.
    #[tactic(auto, unfolding(crate::specs::Grammar::act_said))]
    fn act_at(&self, verb: Verb, words: &[&[u8]]) -> Result<Said, LineError>
        ensures gives { Gives (λ s. s) result
            (act_said verb (map (λ x. x.now) words.now) (head_view self.now)) }
        ensures in_range { IfOk result (IsSaidInRange (vec_len self.now.servers)) }
    {
        let command = self.command_at(verb, words)?;
        Ok(Said::Act(Act::Command(command)))
    }

    // ---- a line of the head

    // A line of the head of this first word, up to the first command.
    #[tactic(auto, unfolding(crate::specs::Grammar::head_keyword))]
    fn head_keyword(
        &mut self,
        alloc: Global,
        keyword: Keyword,
        words: &[&[u8]],
    ) -> Result<Option<Said>, LineError>
        ensures gives { Gives (λ s. (head_view self.new, s)) result
            (head_keyword keyword (map (λ x. x.now) words.now) (head_view self.old)) }
        ensures in_range { IfOk result (λ said. IfSome said
            (IsSaidInRange (vec_len self.new.servers))) }
    {
        match keyword {
            Keyword::Rows => in_head(self.rows_line(words)),
            Keyword::Units => in_head(self.units_line(words)),
            Keyword::Limit => in_head(self.limit_line(words)),
            Keyword::Spare => in_head(self.spare_line(words)),
            Keyword::Server => in_head(self.server_line(alloc, words)),
            Keyword::Start => in_head(self.start_line(words)),
            Keyword::Do(verb) => ends_head(self.act_at(verb, words)),
            Keyword::Race => ends_head(asks(race_said(words))),
            Keyword::Drain => ends_head(asks(drain_at(words))),
            Keyword::Rollover => ends_head(asks(rollover_at(words))),
            Keyword::Account => ends_head(account_at(words)),
        }
    }

    /// What the words of a line of the head say, up to the first command.
    #[tactic(auto, unfolding(crate::specs::Grammar::head_words))]
    pub(crate) fn head_words(
        &mut self,
        alloc: Global,
        words: &[&[u8]],
    ) -> Result<Option<Said>, LineError>
        ensures gives { Gives (λ s. (head_view self.new, s)) result
            (head_words (map (λ x. x.now) words.now) (head_view self.old)) }
        ensures in_range { IfOk result (λ said. IfSome said
            (IsSaidInRange (vec_len self.new.servers))) }
    {
        let Some((first, others)) = words.split_first() else {
            return Ok(None);
        };
        self.head_keyword(alloc, first_word(first)?, others)
    }

    // ---- a line behind the head

    // What a line of this first word says. A line of the head is out of order there.
    #[tactic(auto, unfolding(crate::specs::Grammar::body_keyword))]
    fn body_keyword(
        &self,
        alloc: Global,
        keyword: Keyword,
        words: &[&[u8]],
    ) -> Result<Said, LineError>
        ensures gives { Gives (λ s. s) result
            (body_keyword keyword (map (λ x. x.now) words.now) (head_view self.now)) }
        ensures in_range { IfOk result (IsSaidInRange (vec_len self.now.servers)) }
    {
        match keyword {
            Keyword::Do(verb) => self.act_at(verb, words),
            Keyword::Race => asks(race_said(words)),
            Keyword::Drain => asks(drain_at(words)),
            Keyword::Rollover => asks(rollover_at(words)),
            Keyword::Account => account_at(words),
            Keyword::Rows => late_setting(words),
            Keyword::Units => late_setting(words),
            Keyword::Limit => late_setting(words),
            Keyword::Spare => late_setting(words),
            Keyword::Server => {
                shape_at(alloc, words)?;
                Err(LineFault::Order.into())
            }
            Keyword::Start => {
                three(words)?;
                Err(LineFault::Order.into())
            }
        }
    }

    /// What the words of a line behind the head say, if there are any.
    #[tactic(auto, unfolding(crate::specs::Grammar::body_words))]
    pub(crate) fn body_words(
        &self,
        alloc: Global,
        words: &[&[u8]],
    ) -> Result<Option<Said>, LineError>
        ensures gives { Gives (λ s. s) result
            (body_words (map (λ x. x.now) words.now) (head_view self.now)) }
        ensures in_range { IfOk result (λ said. IfSome said
            (IsSaidInRange (vec_len self.now.servers))) }
    {
        let Some((first, others)) = words.split_first() else {
            return Ok(None);
        };
        let said = self.body_keyword(alloc, first_word(first)?, others)?;
        Ok(Some(said))
    }
}
