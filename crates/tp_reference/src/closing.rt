//! What is printed after the commands of a script over the manager of one thread.
ghost use Rattle.std.specs.Prelude.{◌≡◌, ◌<◌, map, length, string_bytes, IfOk, slice_get};
ghost use Rattle.tp_script.specs.Script.{server_view};
ghost use Rattle.tp_reference.specs.PlainReport.{account_line, closing, ended_below, desk_final_line};
ghost use Rattle.tp_reference.specs.PlainReport.{finals_below};
ghost use Rattle.tp_reference.specs.PlainRunning.{state, IsSetUp};

use crate::client_acts::counts;
use crate::desk_acts::give_up;
use crate::plain_run::{PlainRun, worker};
use std::alloc::{AllocError, Global};
use std::string::String;
use tp_report::{Answer, line};
use tp_script::ScriptServer;

impl PlainRun {
    // The final line of the server at a place.
    fn final_line(
        &self,
        alloc: Global,
        servers: &[ScriptServer],
        at: usize,
    ) -> Result<String, AllocError>
        requires ready { IsSetUp (map server_view servers.now) self.now }
        requires within { at < length servers.now }
        ensures { IfOk result (λ text. string_bytes text
            ≡ desk_final_line (slice_get (map server_view servers.now) at)
            (slice_get self.now.desks.items at)) }
    {
        let name = servers[at].name.as_str();
        let registers = self.desks[at].registers.as_slice();
        line(alloc, Answer::Final { name, registers })
    }

    // The final lines, in the order of the servers.
    fn finals(&self, alloc: Global, servers: &[ScriptServer]) -> Result<String, AllocError>
        requires ready { IsSetUp (map server_view servers.now) self.now }
        ensures { IfOk result (λ text. string_bytes text
            ≡ finals_below (map server_view servers.now) self.now.desks.items (length servers.now)) }
    {
        let mut text = String::new(alloc);
        for at in 0..servers.len() {
            let line = self.final_line(alloc, servers, at)?;
            text.push_str(line.as_str())?;
        }
        Ok(text)
    }

    // Ends all desks: what each of them has in hand is given up.
    fn end_all(&mut self, servers: &[ScriptServer])
        requires ready { IsSetUp (map server_view servers.now) self.old }
        ensures { self.new.plain ≡ ended_below self.old.plain (length servers.now) }
    {
        for at in 0..servers.len() {
            give_up(&mut self.plain, worker(at));
        }
    }

    // The account's line when all desks are ended, if it is asked for.
    fn account_line(
        &mut self,
        alloc: Global,
        servers: &[ScriptServer],
        account: bool,
    ) -> Result<String, AllocError>
        requires ready { IsSetUp (map server_view servers.now) self.old }
        ensures { IfOk result (λ text. string_bytes text
            ≡ account_line account (length servers.now) (state self.old)) }
    {
        if !account {
            return Ok(String::new(alloc));
        }
        self.end_all(servers);
        line(alloc, Answer::Account(counts(&self.plain)))
    }

    /// Ends the run: the final lines, and the account where it is asked for.
    pub(crate) fn closing(
        &mut self,
        alloc: Global,
        servers: &[ScriptServer],
        account: bool,
    ) -> Result<String, AllocError>
        requires ready { IsSetUp (map server_view servers.now) self.old }
        ensures { IfOk result (λ text. string_bytes text
            ≡ closing (map server_view servers.now) account (state self.old)) }
    {
        let mut text = self.finals(alloc, servers)?;
        let line = self.account_line(alloc, servers, account)?;
        text.push_str(line.as_str())?;
        Ok(text)
    }
}
