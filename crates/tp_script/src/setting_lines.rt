//! The settings of a head, each a line of its own.
ghost use Rattle.std.specs.Prelude.{◌≡◌, ◌≤◌, map, IfOk};
ghost use Rattle.tp_script.specs.Grammar.{limit_line, rows_line, setting_at, spare_line, units_line};
ghost use Rattle.tp_script.specs.LineWords.{of_one_word};
ghost use Rattle.tp_script.specs.Reading.{Gives, GivesHead};
ghost use Rattle.tp_script.specs.Script.{head_view};

use crate::fault::{LineError, LineFault};
use crate::head::Head;
use crate::line_words::{number_at, one};
use tp_model::types::{MAX_ATTEMPTS, MAX_BLOCKS, MAX_PART_ROWS, MAX_UNITS};

impl Head {
    // A setting comes before servers, and is `least` to `most`.
    #[tactic(auto, unfolding(crate::specs::Grammar::setting_at))]
    fn setting_at(&self, word: &[u8], least: u16, most: u16) -> Result<u16, LineError>
        ensures gives { Gives (λ n. n) result (setting_at least most word.now (head_view self.now)) }
        ensures bounds { IfOk result (λ n. (least ≤ n) × (n ≤ most)) }
    {
        if !self.servers.is_empty() {
            return Err(LineFault::Order.into());
        }
        let n = number_at(word, u64::MAX)?;
        if !(u64::from(least)..=u64::from(most)).contains(&n) {
            return Err(LineFault::BadLimits.into());
        }
        Ok(n as u16)
    }

    // `rows N`
    #[tactic(auto, unfolding(crate::specs::Grammar::rows_line))]
    pub(crate) fn rows_line(&mut self, words: &[&[u8]]) -> Result<(), LineError>
        ensures gives { GivesHead self.new result
            (of_one_word (λ w. rows_line w (head_view self.old)) (map (λ x. x.now) words.now)) }
    {
        self.settings.rows = self.setting_at(one(words)?, 1, MAX_PART_ROWS)?;
        Ok(())
    }

    // `units N`
    #[tactic(auto, unfolding(crate::specs::Grammar::units_line))]
    pub(crate) fn units_line(&mut self, words: &[&[u8]]) -> Result<(), LineError>
        ensures gives { GivesHead self.new result
            (of_one_word (λ w. units_line w (head_view self.old)) (map (λ x. x.now) words.now)) }
    {
        self.settings.units = self.setting_at(one(words)?, 1, MAX_UNITS)?;
        Ok(())
    }

    // `limit N`
    #[tactic(auto, unfolding(crate::specs::Grammar::limit_line))]
    pub(crate) fn limit_line(&mut self, words: &[&[u8]]) -> Result<(), LineError>
        ensures gives { GivesHead self.new result
            (of_one_word (λ w. limit_line w (head_view self.old)) (map (λ x. x.now) words.now)) }
    {
        self.settings.attempts = self.setting_at(one(words)?, 1, u16::from(MAX_ATTEMPTS))? as u8;
        Ok(())
    }

    // `spare S`
    #[tactic(auto, unfolding(crate::specs::Grammar::spare_line))]
    pub(crate) fn spare_line(&mut self, words: &[&[u8]]) -> Result<(), LineError>
        ensures gives { GivesHead self.new result
            (of_one_word (λ w. spare_line w (head_view self.old)) (map (λ x. x.now) words.now)) }
    {
        self.settings.spare = self.setting_at(one(words)?, 0, MAX_BLOCKS)?;
        Ok(())
    }
}
