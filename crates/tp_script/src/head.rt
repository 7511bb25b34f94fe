//! The head of a script, and what the lines behind it say.
ghost use Rattle.std.specs.Prelude.{◌≡◌, ◌≤◌, vec_len};
ghost use Rattle.tp_script.specs.declared.script.TheConstants.{MAX_SERVERS};

use crate::script::{Command, MAX_SERVERS, Race, ScriptServer, Settings};
use std::alloc::Global;

/// What a line asks for.
#[derive(Drop)]
pub enum Act {
    /// A command of the client or of a server's desk, or a report of registers.
    Command(Command),
    /// A race is run.
    Race(Race),
    /// The servers take turns until a whole round of them finds nothing.
    Drain,
    /// The same by turns that take the element whose turn it is.
    DrainNext,
    /// What is alive goes on in a new manager.
    Rollover,
}

impl Act {
    ghost use Rattle.tp_script.specs.Passes.{is_race, racers};

    /// Whether it is a race.
    pub fn is_race(&self) -> bool
        ensures { result ≡ is_race self.now }
    {
        matches!(self, Act::Race(_))
    }

    /// How many passes it needs for itself: those of a race's clients and killers.
    pub fn racers(&self) -> u16
        ensures { result ≡ racers self.now }
    {
        match self {
            Act::Race(race) => u16::from(race.clients) + u16::from(race.killers),
            _ => 0,
        }
    }
}

/// What a line behind the settings and servers says.
#[derive(Drop)]
pub enum Said {
    /// This is done.
    Act(Act),
    /// The closing account is reported behind all that is done.
    Account,
}

/// The lines before the first command: settings and servers.
#[derive(Drop)]
pub struct Head {
    /// The limits that they set.
    pub settings: Settings,
    /// The servers, in the order of their lines.
    pub servers: Vec<ScriptServer>,
    ghost few_servers: { vec_len servers ≤ MAX_SERVERS },
}

impl Head {
    ghost use Rattle.tp_script.specs.Script.{head_view, no_head};

    /// A head without lines.
    pub fn new(alloc: Global) -> Head
        ensures { head_view result ≡ no_head }
    {
        Head {
            settings: Settings {
                rows: 64,
                units: 256,
                attempts: 3,
                spare: 0,
            },
            servers: Vec::new(alloc),
        }
    }
}
