//! Dumps: what there is, told as the lines of a head.
ghost use Rattle.std.specs.Prelude.{◌≡◌, ◌+◌, ◌∷◌, [], false, IfErr, IfOk, IfSome, OnOk, length, map};
ghost use Rattle.tp_script.specs.declared.fault.LineError.TheVariants.{NoMemory};
ghost use Rattle.std.specs.Prelude.{string_bytes};
ghost use Rattle.std.specs.List.{flat_map};
ghost use Rattle.tp_lines.specs.declared.line.Command.TheVariants as commands;
ghost use Rattle.tp_store.specs.Calls.{alive_in};
ghost use Rattle.tp_session.specs.Dumps.{and_lines, client_line, dropped_lines, dump_bytes, dump_lines, dump_of, dump_text};
ghost use Rattle.tp_session.specs.Dumps.{dumped, element_line};
ghost use Rattle.tp_session.specs.Dumps.{element_lines, other_lines, standing_lines};
ghost use Rattle.tp_session.specs.Dumps.{ended_lines, first_lines, from_lines, hand_lines, over_line};
ghost use Rattle.tp_session.specs.Dumps.{prepared_lines, server_lines, settled_below, settled_lines, start_line};
ghost use Rattle.tp_session.specs.Dumps.{start_lines, store_lines, told_dump, worker_lines};
ghost use Rattle.tp_session.specs.Said.{Says};
ghost use Rattle.tp_session.specs.Session.{does};

use crate::hand::Hand;
use crate::requests::told;
use crate::server::Server;
use crate::session::Session;
use crate::worker::Worker;
use std::alloc::{AllocError, Global};
use std::collections::BTreeMap;
use std::marker::Model;
use std::string::String;
use tp_answers::Answer;
use tp_lines::{ClientNote, HeadLine, Name, UnitEnd};
use tp_script::LineError;
use tp_store::counts::Counts;
use tp_store::element::{Element, LAST_STAGE};
use tp_store::group::Group;
use tp_store::store::Store;

/// The lines of a dump so far.
#[derive(Drop)]
struct Dump {
    /// Whether each stands behind `> `, as in the answer to `dump`.
    is_quoted: bool,
    text: String,
    many: u64,
}

impl Model for Dump {
    ghost use Rattle.tp_session.specs.Dumps.{DumpSoFar};
    ghost use Rattle.std.specs.Prelude.{string_bytes};

    ghost Value = { DumpSoFar };

    ghost view = { λ d. record { is_quoted = d.is_quoted; text = string_bytes d.text; many = d.many } };
}

/// The lines of a dump.
#[derive(Drop)]
pub struct DumpText {
    /// How many they are.
    pub lines: u64,
    /// The text of all of them, each with its end.
    pub text: String,
}

/// The text of one line.
fn dump_line(alloc: Global, is_quoted: bool, line: &HeadLine) -> Result<String, AllocError>
    ensures { IfOk result (λ text. string_bytes text ≡ dumped is_quoted line.now) }
{
    if is_quoted {
        format!(in alloc; "> {line}\n")
    } else {
        format!(in alloc; "{line}\n")
    }
}

/// The text of a line of the head, as the answer to it.
pub(crate) fn line_told(alloc: Global, line: &HeadLine) -> Result<String, LineError>
    ensures text { IfOk result (λ text. string_bytes text ≡ dumped false line.now) }
    ensures err { IfErr result (λ why. why ≡ NoMemory) }
{
    match dump_line(alloc, false, line) {
        Ok(text) => Ok(text),
        Err(_) => Err(LineError::NoMemory),
    }
}

impl Dump {
    /// No lines.
    fn new(alloc: Global, is_quoted: bool) -> Dump
        ensures { result ≡ record { is_quoted = is_quoted; text = []; many = 0 } }
    {
        Dump {
            is_quoted,
            text: String::new(alloc),
            many: 0,
        }
    }

    /// One line more.
    fn add(&mut self, alloc: Global, line: &HeadLine) -> Result<(), AllocError>
        ensures { OnOk result (self.new ≡ and_lines (line.now ∷ []) self.old) }
    {
        let Some(many) = self.many.checked_add(1) else {
            return Err(AllocError);
        };
        let text = dump_line(alloc, self.is_quoted, line)?;
        self.text.push_str(text.as_str())?;
        self.many = many;
        Ok(())
    }

    /// The settings, and the numbers that come next.
    fn add_first(&mut self, alloc: Global, session: &Session) -> Result<(), AllocError>
        ensures { OnOk result (self.new ≡ and_lines (first_lines session.now) self.old) }
    {
        let limits = session.store.limits();
        self.add(
            alloc,
            &HeadLine::Limit {
                attempts: limits.attempts,
            },
        )?;
        self.add(
            alloc,
            &HeadLine::Max {
                elements: limits.most,
            },
        )?;
        self.add(
            alloc,
            &HeadLine::Keep {
                requests: limits.keep,
            },
        )?;
        self.add(
            alloc,
            &HeadLine::Numbers {
                next: session.store.next(),
                units: session.store.units(),
                owners: session.owners,
            },
        )
    }

    /// Where `next` goes on.
    fn add_from(&mut self, alloc: Global, name: &Name, id: u64) -> Result<(), AllocError>
        ensures { OnOk result (self.new ≡ and_lines (from_lines name.now id) self.old) }
    {
        if id == 0 {
            return Ok(());
        }
        let name = name.copy();
        self.add(alloc, &HeadLine::From { name, id })
    }

    /// What is in hand.
    fn add_hand(&mut self, alloc: Global, name: &Name, hand: Option<Hand>) -> Result<(), AllocError>
        ensures { OnOk result (self.new ≡ and_lines (hand_lines name.now hand) self.old) }
    {
        let Some(Hand { id, unit, tries }) = hand else {
            return Ok(());
        };
        let name = name.copy();
        self.add(
            alloc,
            &HeadLine::Hand {
                name,
                id,
                unit,
                tries,
            },
        )
    }

    /// Whether a server's work is prepared.
    fn add_prepared(
        &mut self,
        alloc: Global,
        name: &Name,
        is_prepared: bool,
    ) -> Result<(), AllocError>
        ensures { OnOk result (self.new ≡ and_lines (prepared_lines name.now is_prepared) self.old) }
    {
        if !is_prepared {
            return Ok(());
        }
        let name = name.copy();
        self.add(alloc, &HeadLine::Prepared { name })
    }

    /// Whether a server was dropped.
    fn add_dropped(
        &mut self,
        alloc: Global,
        name: &Name,
        is_dropped: bool,
    ) -> Result<(), AllocError>
        ensures { OnOk result (self.new ≡ and_lines (dropped_lines name.now is_dropped) self.old) }
    {
        if !is_dropped {
            return Ok(());
        }
        let name = name.copy();
        self.add(alloc, &HeadLine::Dropped { name })
    }

    /// A register from this one on, unless it is 0.
    fn add_start(
        &mut self,
        alloc: Global,
        name: &Name,
        k: u64,
        value: u64,
    ) -> Result<(), AllocError>
        ensures { OnOk result (self.new ≡ and_lines (start_line name.now k value) self.old) }
    {
        if value == 0 {
            return Ok(());
        }
        let name = name.copy();
        self.add(alloc, &HeadLine::Start { name, k, value })
    }

    /// The registers of a server from this one on.
    fn add_starts(
        &mut self,
        alloc: Global,
        name: &Name,
        k: u64,
        registers: &[u64],
    ) -> Result<(), AllocError>
        ensures { OnOk result (self.new ≡ and_lines (start_lines name.now k registers.now) self.old) }
    {
        let Some((value, others)) = registers.split_first() else {
            return Ok(());
        };
        self.add_start(alloc, name, k, *value)?;
        match k.checked_add(1) {
            Some(next) => self.add_starts(alloc, name, next, others),
            None => Err(AllocError),
        }
    }

    /// How a server stands.
    fn add_standing(&mut self, alloc: Global, server: &Server) -> Result<(), AllocError>
        ensures { OnOk result (self.new ≡ and_lines (standing_lines server.now) self.old) }
    {
        let name = server.name();
        self.add_from(alloc, name, server.from())?;
        self.add_hand(alloc, name, server.hand())?;
        self.add_prepared(alloc, name, server.is_prepared())?;
        self.add_dropped(alloc, name, server.is_dropped())
    }

    /// A server.
    fn add_server(&mut self, alloc: Global, server: &Server) -> Result<(), AllocError>
        ensures { OnOk result (self.new ≡ and_lines (server_lines server.now) self.old) }
    {
        let name = server.name();
        self.add(alloc, &HeadLine::Server(server.line()?))?;
        self.add_starts(alloc, name, 0, server.registers())?;
        self.add_standing(alloc, server)
    }

    /// The servers, in the order of their lines.
    fn add_servers(&mut self, alloc: Global, servers: &[Server]) -> Result<(), AllocError>
        ensures { OnOk result (self.new ≡ and_lines (flat_map server_lines servers.now) self.old) }
    {
        for server in servers {
            self.add_server(alloc, server)?;
        }
        Ok(())
    }

    /// How a worker's last unit ended.
    fn add_end(
        &mut self,
        alloc: Global,
        name: &Name,
        end: Option<UnitEnd>,
    ) -> Result<(), AllocError>
        ensures { OnOk result (self.new ≡ and_lines (ended_lines name.now end) self.old) }
    {
        let Some(end) = end else {
            return Ok(());
        };
        let name = name.copy();
        self.add(alloc, &HeadLine::Ended { name, end })
    }

    /// A worker.
    fn add_worker(&mut self, alloc: Global, name: &Name, worker: &Worker) -> Result<(), AllocError>
        ensures { OnOk result (self.new ≡ and_lines (worker_lines (name.now, worker.now)) self.old) }
    {
        let copy = name.copy();
        self.add(
            alloc,
            &HeadLine::Worker {
                name: copy,
                stage: worker.stage,
            },
        )?;
        self.add_from(alloc, name, worker.from)?;
        self.add_hand(alloc, name, worker.hand)?;
        self.add_end(alloc, name, worker.end)
    }

    /// The workers, in the order of their names.
    fn add_workers(
        &mut self,
        alloc: Global,
        workers: &BTreeMap<Name, Worker>,
    ) -> Result<(), AllocError>
        ensures { OnOk result (self.new ≡ and_lines (flat_map worker_lines workers.now.entries) self.old) }
    {
        for (name, worker) in workers {
            self.add_worker(alloc, name, worker)?;
        }
        Ok(())
    }

    /// The clients, in the order of their names.
    fn add_clients(
        &mut self,
        alloc: Global,
        clients: &BTreeMap<Name, ClientNote>,
    ) -> Result<(), AllocError>
        ensures { OnOk result (self.new ≡ and_lines (map client_line clients.now.entries) self.old) }
    {
        for (name, note) in clients {
            let name = name.copy();
            let note = note.copy();
            self.add(alloc, &HeadLine::Client { name, note })?;
        }
        Ok(())
    }

    /// The elements.
    fn add_elements(&mut self, alloc: Global, elements: &[(u64, Element)]) -> Result<(), AllocError>
        ensures { OnOk result (self.new ≡ and_lines (map element_line elements.now) self.old) }
    {
        for (id, element) in elements {
            let id = *id;
            let element = *element;
            self.add(alloc, &HeadLine::Element { id, element })?;
        }
        Ok(())
    }

    /// The requests that are over.
    fn add_over(&mut self, alloc: Global, store: &Store) -> Result<(), AllocError>
        ensures { OnOk result (self.new ≡ and_lines (map over_line store.now.ended) self.old) }
    {
        for k in 0..usize::MAX {
            match store.over(k) {
                Some(root) => self.add(alloc, &HeadLine::Over { root })?,
                None => return Ok(()),
            }
        }
        Err(AllocError)
    }

    /// How many of a stage were consumed and killed, where any were.
    fn add_settled(
        &mut self,
        alloc: Global,
        stage: u16,
        counts: Option<Counts>,
    ) -> Result<(), AllocError>
        ensures { OnOk result (self.new ≡ and_lines (settled_lines stage counts) self.old) }
    {
        let Some(counts) = counts else {
            return Ok(());
        };
        if counts.consumed == 0 && counts.killed == 0 {
            return Ok(());
        }
        self.add(
            alloc,
            &HeadLine::Settled {
                stage,
                consumed: counts.consumed,
                killed: counts.killed,
            },
        )
    }

    /// Those of the stages below this one.
    #[tactic(auto, unfolding(crate::specs::Dumps::settled_below))]
    fn add_all_settled(&mut self, alloc: Global, store: &Store, end: u16) -> Result<(), AllocError>
        ensures { OnOk result (self.new ≡ and_lines (settled_below end store.now.tally.stages) self.old) }
    {
        for stage in 0..end {
            self.add_settled(alloc, stage, store.stage_total(stage))?;
        }
        Ok(())
    }

    /// All elements of a store.
    fn add_all_elements(&mut self, alloc: Global, store: &Store) -> Result<(), AllocError>
        ensures { OnOk result (self.new ≡ and_lines (element_lines store.now) self.old) }
    {
        let elements = store.list(alloc, Group::All, 0, usize::MAX)?;
        self.add_elements(alloc, elements.as_slice())
    }

    /// All that is in a store.
    fn add_store(&mut self, alloc: Global, store: &Store) -> Result<(), AllocError>
        ensures { OnOk result (self.new ≡ and_lines (store_lines store.now) self.old) }
    {
        self.add_all_elements(alloc, store)?;
        self.add_over(alloc, store)?;
        self.add_all_settled(alloc, store, LAST_STAGE + 1)
    }

    /// What there is beside the settings.
    fn add_others(
        &mut self,
        alloc: Global,
        servers: &[Server],
        workers: &BTreeMap<Name, Worker>,
        clients: &BTreeMap<Name, ClientNote>,
        store: &Store,
    ) -> Result<(), AllocError>
        ensures { OnOk result (self.new ≡ and_lines (other_lines servers.now
            workers.now.entries clients.now.entries store.now) self.old) }
    {
        self.add_servers(alloc, servers)?;
        self.add_workers(alloc, workers)?;
        self.add_clients(alloc, clients)?;
        self.add_store(alloc, store)
    }

    /// All that there is.
    fn add_session(&mut self, alloc: Global, session: &Session) -> Result<(), AllocError>
        ensures { OnOk result (self.new ≡ and_lines (dump_lines session.now) self.old) }
    {
        self.add_first(alloc, session)?;
        self.add_others(
            alloc,
            session.servers.as_slice(),
            &session.workers,
            &session.clients,
            &session.store,
        )
    }

    /// The text of all lines, with how many they are in front of them.
    fn told(&self, alloc: Global) -> Result<String, AllocError>
        ensures { IfOk result (λ text. string_bytes text ≡ told_dump self.now) }
    {
        let Some(many) = self.many.checked_add(1) else {
            return Err(AllocError);
        };
        let mut text = format!(in alloc; "dumped {many}\n")?;
        text.push_str(self.text.as_str())?;
        text.push_str("> restore\n")?;
        Ok(text)
    }
}

/// The answer to `dump`.
fn dump_all(alloc: Global, session: &Session) -> Result<String, AllocError>
    ensures { IfOk result (λ text. string_bytes text ≡ dump_text (dump_lines session.now)) }
{
    let mut dump = Dump::new(alloc, true);
    dump.add_session(alloc, session)?;
    dump.told(alloc)
}

/// How many elements are alive, if 64 bits have that number.
fn alive(store: &Store) -> Option<u64>
    ensures { IfSome result (λ many. many ≡ alive_in store.now) }
{
    let total = store.total();
    let open = total.waiting.checked_add(total.held)?;
    open.checked_add(total.parked)
}

impl Session {
    /// The lines of a dump. A session that has none of its own yet makes the same session of them.
    pub fn dumped(&self, alloc: Global) -> Result<DumpText, AllocError>
        ensures text { IfOk result (λ dumped. string_bytes dumped.text ≡ dump_bytes self.now) }
        ensures lines { IfOk result (λ dumped. dumped.lines ≡ length (dump_of self.now)) }
    {
        let mut dump = Dump::new(alloc, false);
        dump.add_session(alloc, self)?;
        let Some(lines) = dump.many.checked_add(1) else {
            return Err(AllocError);
        };
        let mut text = dump.text;
        text.push_str("restore\n")?;
        Ok(DumpText { lines, text })
    }

    /// `dump`
    pub(crate) fn dump(&self, alloc: Global) -> Result<String, LineError>
        ensures { Says string_bytes result self.now self.now (does commands.Dump self.now) }
    {
        match dump_all(alloc, self) {
            Ok(text) => Ok(text),
            Err(_) => Err(LineError::NoMemory),
        }
    }

    /// `restore`
    pub(crate) fn restored(&self, alloc: Global) -> Result<String, LineError>
        ensures { Says string_bytes result self.now self.now (does commands.Restore self.now) }
    {
        match alive(&self.store) {
            Some(many) => told(alloc, Answer::Restored { many }),
            None => Err(LineError::NoMemory),
        }
    }
}
