//! What lines set and ask for: settings, servers and commands.
ghost use Rattle.std.specs.Prelude.{◌≡◌, ◌≤◌, Ok, length};
ghost use Rattle.tp_server.specs.Check.{check_of};
ghost use Rattle.tp_model.specs.declared.types.TheConstants.{MAX_ATTEMPTS, MAX_BLOCKS, MAX_PART_ROWS};
ghost use Rattle.tp_model.specs.declared.types.TheConstants.{MAX_UNITS};

use std::string::String;
use tp_model::types::Body;
use tp_server::{Recipe, Registers};

/// How many servers a head may have.
pub const MAX_SERVERS: usize = 8;

/// The limits that a head sets.
#[derive(Clone, Copy)]
pub struct Settings {
    /// Rows of each pass, 1 to 256.
    pub rows: u16,
    /// Units of work of each pass, 1 to 1024.
    pub units: u16,
    /// Attempts of each element in a round, 1 to 7.
    pub attempts: u8,
    /// Spare blocks of rows, 0 to 256.
    pub spare: u16,
    ghost rows_in_range: { (1 ≤ rows) × (rows ≤ MAX_PART_ROWS) },
    ghost units_in_range: { (1 ≤ units) × (units ≤ MAX_UNITS) },
    ghost attempts_in_range: { (1 ≤ attempts) × (attempts ≤ MAX_ATTEMPTS) },
    ghost spare_in_range: { spare ≤ MAX_BLOCKS },
}

/// How a server keeps prepared work: by changing its registers at once, or by keeping what it will write.
#[derive(Clone, Copy)]
pub enum Kind {
    /// It changes its registers as it prepares.
    Eager,
    /// It keeps what it will write until it commits.
    Lazy,
}

/// A server line, with the start lines of that server.
#[derive(Drop)]
pub struct ScriptServer {
    /// 1 to 8 small letters, which no other server has.
    pub name: String,
    /// How it keeps prepared work.
    pub kind: Kind,
    /// What it does; a recipe without a fault.
    pub recipe: Recipe,
    /// What its registers begin with.
    pub registers: Registers,
    ghost checked: { check_of recipe ≡ Ok tt },
    ghost counted: { length registers ≡ recipe.registers },
}

/// What the client does.
#[derive(Clone, Copy)]
pub enum ClientAct {
    /// It submits an element.
    Submit { stage: u8, body: Body },
    /// It kills an element.
    Kill { id: u32 },
    /// It cancels a whole request.
    Cancel { root: u32 },
    /// It gives a parked element another round.
    Requeue { id: u32 },
    /// It aborts the unit of work that holds an element.
    Release { id: u32 },
    /// It reads an element.
    Read { id: u32 },
    /// It lists the replies to a request.
    Reply { root: u32 },
    /// It takes the replies to a request.
    Collect { root: u32 },
    /// It lists the elements of a request.
    Family { root: u32 },
    /// It lists the parked elements.
    Errors,
    /// It counts the elements by status.
    Count,
}

/// What a server's desk does.
#[derive(Clone, Copy, PartialEq, Eq)]
pub enum DeskAct {
    /// It takes a turn.
    Turn,
    /// It takes the element with the least id.
    Claim,
    /// It takes the element whose turn it is.
    Next,
    /// It takes the element with this id.
    Take { id: u32 },
    /// It prepares its work on the element that it took.
    Prepare,
    /// It commits its unit of work.
    Commit,
    /// It aborts its unit of work.
    Abort,
    /// It is dropped.
    Drop,
}

/// The servers take turns while clients submit and killers kill, each on a thread of its own.
#[derive(Clone, Copy)]
pub struct Race {
    /// How many clients there are, 0 to 31.
    pub clients: u8,
    /// How often each of them submits, 0 to 256.
    pub submits: u16,
    /// What each of them submits, with zeros after key and amount; the stage is 1 to 14.
    pub stage: u8,
    pub key: u64,
    pub amount: u64,
    /// How many killers there are, 0 to 31.
    pub killers: u8,
    /// The most turns of each server, 0 to 10,000.
    pub turns: u16,
}

/// A command of the client or of a server's desk, or what is reported of registers. A server is given by its
/// place among the servers.
#[derive(Clone, Copy)]
pub enum Command {
    /// The client does this.
    Client(ClientAct),
    /// The desk of a server does this.
    Desk { server: usize, act: DeskAct },
    /// A register of a server is reported.
    Balance { server: usize, k: u64 },
    /// The sum of a register over all servers is reported.
    Sum { k: u64 },
}
