//! A whole script, read line by line.
ghost use Rattle.std.specs.Prelude.{◌≡◌, ◌+◌, ◌≤◌, Result, Option, map, vec_len, IfOk, IfSome};
ghost use Rattle.std.specs.List.{All};
ghost use Rattle.tp_model.specs.declared.types.TheConstants.{MAX_PASSES};
ghost use Rattle.tp_script.specs.declared.fault.LineFault.{LineFault};
ghost use Rattle.tp_script.specs.declared.head.Said.{Said};
ghost use Rattle.tp_script.specs.Passes.{has_race, racing};
ghost use Rattle.tp_script.specs.Ranges.{IsActInRange, IsActInRange-prop, IsSaidInRange};

use crate::fault::{LineError, LineFault};
use crate::grammar::line_words;
use crate::head::{Act, Head, Said};
use std::alloc::Global;
use tp_model::types::MAX_PASSES;

/// A script that was read.
#[derive(Drop)]
pub struct Script {
    /// Its settings and servers.
    pub head: Head,
    /// What its commands ask for, in their order.
    pub acts: Vec<Act>,
    /// Whether it asks for the closing account, after all commands.
    pub account: bool,
    // How many passes its races need.
    racers: u16,
    ghost racers_counted: { racers ≡ racing acts.items },
    ghost few_passes: { 1 + vec_len head.servers + racers ≤ MAX_PASSES },
    ghost acts_in_range: { All (IsActInRange (vec_len head.servers)) acts.items } by { Prim.hlevel IsActInRange-prop },
}

impl Script {
    ghost use Rattle.tp_script.specs.Grammar.{head_words};
    ghost use Rattle.tp_script.specs.Reading.{Gives, GivesScript};
    ghost use Rattle.tp_script.specs.Script.{ScriptView, head_view, passes, script_view};
    ghost use Rattle.tp_script.specs.Whole.{behind_account, line_at, no_lines, with_act, with_said};
    ghost use Rattle.tp_script.specs.Whole.{words_line};

    /// A script without lines.
    pub(crate) fn new(alloc: Global) -> Script
        ensures { script_view result ≡ no_lines }
    {
        Script {
            head: Head::new(alloc),
            acts: Vec::new(alloc),
            account: false,
            racers: 0,
        }
    }

    /// How many passes it needs: the client's, one for each server, and those of its races.
    pub fn passes(&self) -> u16
        ensures value { result ≡ passes (script_view self.now) }
        ensures bound { result ≤ MAX_PASSES }
    {
        1 + self.head.servers.len() as u16 + self.racers
    }

    /// How many passes its races need, 0 without races.
    pub fn racers(&self) -> u16
        ensures value { result ≡ racing self.now.acts.items }
        ensures bound { 1 + vec_len self.now.head.servers + result ≤ MAX_PASSES }
    {
        self.racers
    }

    /// Whether there is a race among its commands.
    pub fn has_race(&self) -> bool
        ensures { result ≡ has_race self.now.acts.items }
    {
        self.acts.iter().any(|act| act.is_race())
    }

    // Adds what a command asks for, unless the script needs more passes then than there can be.
    #[tactic(auto, unfolding(crate::specs::Whole::with_act), using(std::proofs::lemmas::List::Sums::sum_by_push, crate::proofs::ScriptLemmas::all_in_range_push))]
    fn add(&mut self, act: Act) -> Result<(), LineError>
        requires { IsActInRange (vec_len self.old.head.servers) act }
        ensures { GivesScript self.new result (with_act act (script_view self.old)) }
    {
        let racers = act.racers();
        if racers > MAX_PASSES - self.passes() {
            return Err(LineFault::BadLimits.into());
        }
        self.acts.push(act)?;
        self.racers += racers;
        Ok(())
    }

    // Adds what a line says, if it says something.
    fn add_said(&mut self, said: Option<Said>) -> Result<(), LineError>
        requires { IfSome said (IsSaidInRange (vec_len self.old.head.servers)) }
        ensures { GivesScript self.new result (with_said said (script_view self.old)) }
    {
        match said {
            None => Ok(()),
            Some(Said::Account) => {
                self.account = true;
                Ok(())
            }
            Some(Said::Act(act)) => self.add(act),
        }
    }

    // What the words of a line of the head say, up to the first command.
    #[tactic(auto, using(crate::proofs::ScriptLemmas::racing_none, crate::proofs::ScriptLemmas::all_in_range_none))]
    fn head_words(&mut self, alloc: Global, words: &[&[u8]]) -> Result<Option<Said>, LineError>
        requires { vec_len self.old.acts ≡ 0 }
        ensures gives { Gives (λ s. (head_view self.new.head, s)) result
            (head_words (map (λ x. x.now) words.now) (head_view self.old.head)) }
        ensures in_range { IfOk result (λ said. IfSome said
            (IsSaidInRange (vec_len self.new.head.servers))) }
        ensures acts { self.new.acts ≡ self.old.acts }
        ensures account { self.new.account ≡ self.old.account }
    {
        self.head.head_words(alloc, words)
    }

    // What the words of a line say.
    #[tactic(auto, unfolding(crate::specs::Whole::words_line))]
    fn words_line(&mut self, alloc: Global, words: &[&[u8]]) -> Result<(), LineError>
        ensures { GivesScript self.new result
            (words_line (map (λ x. x.now) words.now) (script_view self.old)) }
    {
        if self.account {
            return Script::behind_account(self.head.body_words(alloc, words));
        }
        let said = if self.acts.is_empty() {
            self.head_words(alloc, words)?
        } else {
            self.head.body_words(alloc, words)?
        };
        self.add_said(said)
    }

    /// Adds what a line says.
    #[tactic(auto, unfolding(crate::specs::Whole::line_at))]
    pub(crate) fn line(&mut self, alloc: Global, line: &[u8]) -> Result<(), LineError>
        ensures { GivesScript self.new result (line_at line.now (script_view self.old)) }
    {
        let words = line_words(alloc, line)?;
        self.words_line(alloc, words.as_slice())
    }

    // What a line is behind `account`, which said this.
    fn behind_account(read: Result<Option<Said>, LineError>) -> Result<(), LineError>
        ensures { (said : Result (Option Said) LineFault) → (s : ScriptView) → Gives (λ a. a) read said
            → Gives (λ _. s) result (behind_account said s) }
    {
        match read {
            Ok(None) => Ok(()),
            Ok(Some(_)) => Err(LineFault::Order.into()),
            Err(LineError::NoMemory) => Err(LineError::NoMemory),
            Err(LineError::Fault(LineFault::Syntax)) => Err(LineFault::Syntax.into()),
            Err(_) => Err(LineFault::Order.into()),
        }
    }
}
