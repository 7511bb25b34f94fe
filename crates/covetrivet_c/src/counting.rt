//! What is asked of all passes, once they are at home.
ghost use Rattle.std.specs.Prelude.{◌≡◌, ◌≤◌};
ghost use Rattle.covetrivet_c.specs.Homes.{counts_of_stage};

use crate::fault::Fault;
use crate::home::Home;
use tp_model::types::{Account, Counts, REPLY_STAGE};
use tp_rollover::Moved;

/// The counts of a stage, 1 to 15, and with 0 those of all stages.
pub(crate) fn counts_at(account: &Account, stage: u8) -> Counts
    requires inside { stage ≤ 15 }
    ensures { result ≡ counts_of_stage account.now stage }
{
    if stage == 0 {
        return account.total;
    }
    account.stages[usize::from(stage - 1)]
}

impl Home {
    ghost use Rattle.covetrivet_c.specs.Accounting.{AccountSays, CountSays, GatherSays, MovedSays};

    /// All passes look until all have seen one history. `NotAll` where one is not at home.
    pub fn gather(&mut self) -> Result<(), Fault>
        ensures { GatherSays self.old self.new result }
    {
        if !self.keeper.has_all(&self.passes) {
            return Err(Fault::NotAll);
        }
        self.keeper.gather(&self.manager, &mut self.passes);
        Ok(())
    }

    /// The account of one history, which all passes have then seen. `NotAll` where one is not at home.
    pub fn account(&mut self) -> Result<Account, Fault>
        ensures answer { AccountSays self.old self.new result }
    {
        if !self.keeper.has_all(&self.passes) {
            return Err(Fault::NotAll);
        }
        Ok(self.keeper.account(&self.manager, &mut self.passes))
    }

    /// Its counts of a stage, 1 to 15, and with 0 those of all stages. `BadStage` too.
    pub fn count(&mut self, stage: u8) -> Result<Counts, Fault>
        ensures { CountSays stage self.old self.new result }
    {
        if stage > REPLY_STAGE {
            return Err(Fault::BadStage);
        }
        match self.account() {
            Ok(account) => Ok(counts_at(&account, stage)),
            Err(fault) => Err(fault),
        }
    }

    /// What the last rollover carried over in this place, from 0 on. `Nothing` behind the last.
    pub fn moved_at(&self, place: usize) -> Result<Moved, Fault>
        ensures { MovedSays place self.now self.now result }
    {
        match self.moved.get(place) {
            Some(moved) => Ok(*moved),
            None => Err(Fault::Nothing),
        }
    }
}
