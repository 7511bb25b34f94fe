//! The command lines.
ghost use Rattle.std.specs.Prelude.{◌<◌, ◌≤◌, ℕ, map, vec_len, IfOk};
ghost use Rattle.tp_model.specs.declared.types.TheConstants.{MAX_STAGE};
ghost use Rattle.tp_script.specs.Commands.{server_named, one_server, one_id, submit_at, submit_body};
ghost use Rattle.tp_script.specs.Commands.{submit_words};
ghost use Rattle.tp_script.specs.Commands.{balance_at, command_at, drain_at};
ghost use Rattle.tp_script.specs.Commands.{race_at, race_said, race_words, rollover_at, stage_at, take_at};
ghost use Rattle.tp_script.specs.Ranges.{IsActInRange, IsInRange, IsRaceInRange};
ghost use Rattle.tp_script.specs.Reading.{Gives, submit_view, race_view};
ghost use Rattle.tp_script.specs.Script.{head_view};

use crate::fault::{LineError, LineFault};
use crate::head::{Act, Head};
use crate::keyword::Verb;
use crate::line_words::{body_of, is, is_name, none, number_at, one, two};
use crate::script::{ClientAct, Command, DeskAct, Race};
use tp_model::types::{Body, MAX_PART_ROWS, MAX_PASSES, MAX_STAGE};

// The one word, an id.
#[tactic(auto, unfolding(crate::specs::Commands::one_id))]
fn one_id(words: &[&[u8]]) -> Result<u32, LineError>
    ensures { Gives (λ n. n) result (one_id (map (λ x. x.now) words.now)) }
{
    let id = number_at(one(words)?, u64::from(u32::MAX))?;
    Ok(id as u32)
}

// The words of a submit line, each in its place.
#[derive(Clone, Copy)]
struct SubmitWords<'a> {
    stage: &'a [u8],
    key: &'a [u8],
    amount: &'a [u8],
    word_two: &'a [u8],
    word_three: &'a [u8],
}

// STAGE KEY AMOUNT, with words 2 and 3 of the body after; missing ones are 0.
fn submit_words<'a>(words: &[&'a [u8]]) -> Result<SubmitWords<'a>, LineError>
    ensures { Gives submit_view result (submit_words (map (λ x. x.now) words.now)) }
{
    let (stage, key, amount, word_two, word_three) = match words {
        [stage, key, amount] => (stage, key, amount, b"0".as_slice(), b"0".as_slice()),
        [stage, key, amount, two] => (stage, key, amount, *two, b"0".as_slice()),
        [stage, key, amount, two, three] => (stage, key, amount, *two, *three),
        _ => return Err(LineFault::Syntax.into()),
    };
    Ok(SubmitWords {
        stage,
        key,
        amount,
        word_two,
        word_three,
    })
}

impl SubmitWords<'_> {
    // The body that they say.
    fn body(self) -> Result<Body, LineError>
        ensures { Gives (λ body. body) result (submit_body (submit_view self.entry)) }
    {
        body_of((self.key, self.amount, self.word_two, self.word_three))
    }
}

// `submit STAGE KEY AMOUNT W2 W3`
#[tactic(auto, unfolding(crate::specs::Commands::submit_at))]
fn submit_at(words: SubmitWords<'_>) -> Result<Command, LineError>
    ensures gives { Gives (λ c. c) result (submit_at (submit_view words.entry)) }
    ensures in_range { IfOk result (λ c. (servers : ℕ) → IsInRange servers c) }
{
    let stage = number_at(words.stage, 255)? as u8;
    let body = words.body()?;
    Ok(Command::Client(ClientAct::Submit { stage, body }))
}

// The words of a race line, each in its place.
#[derive(Clone, Copy)]
struct RaceWords<'a> {
    clients: &'a [u8],
    submits: &'a [u8],
    stage: &'a [u8],
    key: &'a [u8],
    amount: &'a [u8],
    killers: &'a [u8],
    turns: &'a [u8],
}

// CLIENTS SUBMITS STAGE KEY AMOUNT KILLERS TURNS
fn race_words<'a>(words: &[&'a [u8]]) -> Result<RaceWords<'a>, LineError>
    ensures { Gives race_view result (race_words (map (λ x. x.now) words.now)) }
{
    let [clients, submits, stage, key, amount, killers, turns] = words else {
        return Err(LineFault::Syntax.into());
    };
    Ok(RaceWords {
        clients,
        submits,
        stage,
        key,
        amount,
        killers,
        turns,
    })
}

// A stage that clients may submit to.
#[tactic(auto, unfolding(crate::specs::Commands::stage_at))]
fn stage_at(word: &[u8]) -> Result<u8, LineError>
    ensures gives { Gives (λ n. n) result (stage_at word.now) }
    ensures bounds { IfOk result (λ n. (1 ≤ n) × (n ≤ MAX_STAGE)) }
{
    let stage = number_at(word, u64::from(MAX_STAGE))?;
    if stage < 1 {
        return Err(LineFault::BadNumber.into());
    }
    Ok(stage as u8)
}

// The race that they say.
#[tactic(auto, unfolding(crate::specs::Commands::race_at))]
fn race_at(words: RaceWords<'_>) -> Result<Race, LineError>
    ensures gives { Gives (λ race. race) result (race_at (race_view words.entry)) }
    ensures in_range { IfOk result IsRaceInRange }
{
    let clients = number_at(words.clients, u64::from(MAX_PASSES) - 1)? as u8;
    let submits = number_at(words.submits, u64::from(MAX_PART_ROWS))? as u16;
    let stage = stage_at(words.stage)?;
    let key = number_at(words.key, u64::MAX)?;
    let amount = number_at(words.amount, u64::MAX)?;
    let killers = number_at(words.killers, u64::from(MAX_PASSES) - 1)? as u8;
    let turns = number_at(words.turns, 10_000)? as u16;
    Ok(Race {
        clients,
        submits,
        stage,
        key,
        amount,
        killers,
        turns,
    })
}

/// `race CLIENTS SUBMITS STAGE KEY AMOUNT KILLERS TURNS`
#[tactic(auto, unfolding(crate::specs::Commands::race_said))]
pub(crate) fn race_said(words: &[&[u8]]) -> Result<Act, LineError>
    ensures gives { Gives (λ a. a) result (race_said (map (λ x. x.now) words.now)) }
    ensures in_range { (servers : ℕ) → IfOk result (IsActInRange servers) }
{
    let race = race_at(race_words(words)?)?;
    Ok(Act::Race(race))
}

/// `drain` or `drain next`
pub(crate) fn drain_at(words: &[&[u8]]) -> Result<Act, LineError>
    ensures gives { Gives (λ a. a) result (drain_at (map (λ x. x.now) words.now)) }
    ensures in_range { (servers : ℕ) → IfOk result (IsActInRange servers) }
{
    match words {
        [] => Ok(Act::Drain),
        [word] => {
            if is(word, "next") {
                Ok(Act::DrainNext)
            } else {
                Err(LineFault::Syntax.into())
            }
        }
        _ => Err(LineFault::Syntax.into()),
    }
}

/// `rollover`
pub(crate) fn rollover_at(words: &[&[u8]]) -> Result<Act, LineError>
    ensures gives { Gives (λ a. a) result (rollover_at (map (λ x. x.now) words.now)) }
    ensures in_range { (servers : ℕ) → IfOk result (IsActInRange servers) }
{
    none(words)?;
    Ok(Act::Rollover)
}

impl Head {
    // The server of this name.
    #[tactic(auto, unfolding(crate::specs::Commands::server_named))]
    fn named(&self, name: &[u8]) -> Result<usize, LineError>
        ensures gives { Gives (λ n. n) result (server_named name.now (head_view self.now)) }
        ensures within { IfOk result (λ n. n < vec_len self.now.servers) }
    {
        if !is_name(name) {
            return Err(LineFault::BadName.into());
        }
        self.server_at(name)
    }

    // The one word, a server.
    #[tactic(auto, unfolding(crate::specs::Commands::one_server))]
    fn one_server(&self, words: &[&[u8]]) -> Result<usize, LineError>
        ensures gives { Gives (λ n. n) result (one_server (map (λ x. x.now) words.now)
            (head_view self.now)) }
        ensures within { IfOk result (λ n. n < vec_len self.now.servers) }
    {
        self.named(one(words)?)
    }

    // `take NAME ID`
    #[tactic(auto, unfolding(crate::specs::Commands::take_at))]
    fn take_at(&self, words: (&[u8], &[u8])) -> Result<Command, LineError>
        ensures gives { Gives (λ c. c) result (take_at (words.entry.0.now, words.entry.1.now)
            (head_view self.now)) }
        ensures in_range { IfOk result (λ c. IsInRange (vec_len self.now.servers) c) }
    {
        let server = self.named(words.0)?;
        let id = number_at(words.1, u64::from(u32::MAX))? as u32;
        let act = DeskAct::Take { id };
        Ok(Command::Desk { server, act })
    }

    // `balance NAME K`
    #[tactic(auto, unfolding(crate::specs::Commands::balance_at))]
    fn balance_at(&self, words: (&[u8], &[u8])) -> Result<Command, LineError>
        ensures gives { Gives (λ c. c) result (balance_at (words.entry.0.now, words.entry.1.now)
            (head_view self.now)) }
        ensures in_range { IfOk result (λ c. IsInRange (vec_len self.now.servers) c) }
    {
        let server = self.named(words.0)?;
        let k = number_at(words.1, u64::MAX)?;
        Ok(Command::Balance { server, k })
    }

    /// The command of this first word, with the words after it.
    #[tactic(auto, unfolding(crate::specs::Commands::command_at))]
    pub(crate) fn command_at(&self, verb: Verb, words: &[&[u8]]) -> Result<Command, LineError>
        ensures gives { Gives (λ c. c) result (command_at verb (map (λ x. x.now) words.now)
            (head_view self.now)) }
        ensures in_range { IfOk result (λ c. IsInRange (vec_len self.now.servers) c) }
    {
        match verb {
            Verb::Submit => submit_at(submit_words(words)?),
            Verb::Kill => Ok(Command::Client(ClientAct::Kill { id: one_id(words)? })),
            Verb::Cancel => Ok(Command::Client(ClientAct::Cancel {
                root: one_id(words)?,
            })),
            Verb::Requeue => Ok(Command::Client(ClientAct::Requeue { id: one_id(words)? })),
            Verb::Release => Ok(Command::Client(ClientAct::Release { id: one_id(words)? })),
            Verb::Read => Ok(Command::Client(ClientAct::Read { id: one_id(words)? })),
            Verb::Reply => Ok(Command::Client(ClientAct::Reply {
                root: one_id(words)?,
            })),
            Verb::Collect => Ok(Command::Client(ClientAct::Collect {
                root: one_id(words)?,
            })),
            Verb::Family => Ok(Command::Client(ClientAct::Family {
                root: one_id(words)?,
            })),
            Verb::Errors => {
                none(words)?;
                Ok(Command::Client(ClientAct::Errors))
            }
            Verb::Count => {
                none(words)?;
                Ok(Command::Client(ClientAct::Count))
            }
            Verb::Desk(act) => Ok(Command::Desk {
                server: self.one_server(words)?,
                act,
            }),
            Verb::Take => self.take_at(two(words)?),
            Verb::Balance => self.balance_at(two(words)?),
            Verb::Sum => Ok(Command::Sum {
                k: number_at(one(words)?, u64::MAX)?,
            }),
        }
    }
}
