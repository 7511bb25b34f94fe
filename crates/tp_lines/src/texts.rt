//! The texts of the lines that say what there is, as a dump tells them.
ghost use Rattle.std.specs.Prelude.{◌≡◌, Some, codes, map};
ghost use Rattle.std.specs.Fmt.{WritesOnOk};
ghost use Rattle.tp_script.specs.Fault.{◌<>◌};
ghost use Rattle.tp_lines.specs.HeadTexts.{act_text, amount_text, body_text, deed_text, element_words};
ghost use Rattle.tp_lines.specs.HeadTexts.{end_words, head_text, key_text, kind_text, name_text, note_words};
ghost use Rattle.tp_lines.specs.HeadTexts.{number_text, output_text, place_text, rounds_text, server_words};
ghost use Rattle.tp_lines.specs.HeadTexts.{spaced, status_words, word_text};

use crate::line::{ClientNote, HeadLine, ServerLine, UnitEnd};
use crate::name::Name;
use std::fmt;
use tp_model::types::Body;
use tp_script::Kind;
use tp_server::{Act, AmountFrom, KeyFrom, Output, Recipe};
use tp_store::element::{Element, Status};

// `W0:W1:W2:W3`
#[tactic(auto, unfolding(crate::specs::HeadTexts::body_text))]
fn body<W: fmt::Write>(f: &mut fmt::Formatter<W>, body: &Body) -> fmt::Result
    ensures { WritesOnOk W.write_str_gives f.old result (body_text body.now) f.new }
{
    let [key, amount, word_two, word_three] = *body;
    write!(f, "{key}:{amount}:{word_two}:{word_three}")
}

// `STAGE:W0:W1:W2:W3`, behind a space.
#[tactic(auto, unfolding(crate::specs::HeadTexts::place_text))]
fn place<W: fmt::Write>(f: &mut fmt::Formatter<W>, stage: u16, words: &Body) -> fmt::Result
    ensures { WritesOnOk W.write_str_gives f.old result (codes " " <> place_text stage words.now) f.new }
{
    write!(f, " {stage}:")?;
    body(f, words)
}

// ---- servers

// How a server keeps prepared work.
fn kind<W: fmt::Write>(f: &mut fmt::Formatter<W>, kind: Kind) -> fmt::Result
    ensures { WritesOnOk W.write_str_gives f.old result (kind_text kind) f.new }
{
    match kind {
        Kind::Eager => write!(f, "eager"),
        Kind::Lazy => write!(f, "lazy"),
    }
}

// What it does to a register.
fn act<W: fmt::Write>(f: &mut fmt::Formatter<W>, act: Act) -> fmt::Result
    ensures { WritesOnOk W.write_str_gives f.old result (act_text act) f.new }
{
    match act {
        Act::Add => write!(f, "add"),
        Act::Take => write!(f, "take"),
        Act::Pass => write!(f, "pass"),
    }
}

// The amount's word, unless it is word 1.
fn word<W: fmt::Write>(f: &mut fmt::Formatter<W>, word: u8) -> fmt::Result
    ensures { WritesOnOk W.write_str_gives f.old result (word_text word) f.new }
{
    if word == 1 {
        return Ok(());
    }
    write!(f, ":{word}")
}

// `ACT` or `ACT:PLACE`.
#[tactic(auto, unfolding(crate::specs::HeadTexts::deed_text))]
fn deed<W: fmt::Write>(f: &mut fmt::Formatter<W>, recipe: &Recipe) -> fmt::Result
    ensures { WritesOnOk W.write_str_gives f.old result
        (deed_text recipe.now.act recipe.now.word) f.new }
{
    act(f, recipe.act)?;
    word(f, recipe.word)
}

// Where an output's key comes from.
fn key<W: fmt::Write>(f: &mut fmt::Formatter<W>, key: KeyFrom) -> fmt::Result
    ensures { WritesOnOk W.write_str_gives f.old result (key_text key) f.new }
{
    match key {
        KeyFrom::Same => write!(f, "same"),
        KeyFrom::Fixed(number) => write!(f, "{number}"),
    }
}

// Where its amount comes from.
fn amount<W: fmt::Write>(f: &mut fmt::Formatter<W>, amount: AmountFrom) -> fmt::Result
    ensures { WritesOnOk W.write_str_gives f.old result (amount_text amount) f.new }
{
    match amount {
        AmountFrom::Same => write!(f, "same"),
        AmountFrom::After => write!(f, "after"),
        AmountFrom::Fixed(number) => write!(f, "{number}"),
    }
}

// An output.
#[tactic(auto, unfolding(crate::specs::HeadTexts::output_text))]
fn output<W: fmt::Write>(f: &mut fmt::Formatter<W>, output: &Output) -> fmt::Result
    ensures { WritesOnOk W.write_str_gives f.old result (output_text output.now) f.new }
{
    let stage = output.stage;
    write!(f, "{stage}:")?;
    key(f, output.key)?;
    write!(f, ":")?;
    amount(f, output.amount)
}

// All outputs, each behind a space.
fn outputs<W: fmt::Write>(f: &mut fmt::Formatter<W>, outputs: &[Output]) -> fmt::Result
    ensures { WritesOnOk W.write_str_gives f.old result (spaced (map output_text outputs.now)) f.new }
{
    match outputs {
        [] => Ok(()),
        [first, others @ ..] => {
            write!(f, " ")?;
            output(f, first)?;
            self::outputs(f, others)
        }
    }
}

// A server, behind a space.
fn server<W: fmt::Write>(f: &mut fmt::Formatter<W>, server: &ServerLine) -> fmt::Result
    ensures { WritesOnOk W.write_str_gives f.old result (spaced (server_words server.now)) f.new }
{
    let name = server.name.as_str();
    write!(f, " {name} ")?;
    kind(f, server.kind)?;
    let stage = server.recipe.stage;
    let registers = server.recipe.registers;
    write!(f, " {stage} {registers} ")?;
    deed(f, &server.recipe)?;
    outputs(f, server.recipe.outputs.as_slice())
}

// ---- elements

// A number, or this word where there is none, behind a space.
fn number<W: fmt::Write>(f: &mut fmt::Formatter<W>, none: &str, number: Option<u64>) -> fmt::Result
    ensures { WritesOnOk W.write_str_gives f.old result (codes " " <> number_text none.now number) f.new }
{
    match number {
        None => write!(f, " {none}"),
        Some(n) => write!(f, " {n}"),
    }
}

// How an element stands, behind a space.
fn status<W: fmt::Write>(f: &mut fmt::Formatter<W>, status: Status) -> fmt::Result
    ensures { WritesOnOk W.write_str_gives f.old result (spaced (status_words status)) f.new }
{
    match status {
        Status::Waiting { attempts } => write!(f, " waiting {attempts}"),
        Status::Held { unit, attempt } => write!(f, " held {unit} {attempt}"),
        Status::Consumed { unit } => write!(f, " consumed {unit}"),
        Status::Parked { attempts } => write!(f, " parked {attempts}"),
        Status::Killed => write!(f, " killed"),
    }
}

// How many rounds it was given, and the attempts of the ones before, where there were any, behind a space.
#[tactic(auto, unfolding(crate::specs::HeadTexts::rounds_text))]
fn rounds<W: fmt::Write>(f: &mut fmt::Formatter<W>, rounds: u8, earlier: u8) -> fmt::Result
    ensures { WritesOnOk W.write_str_gives f.old result (codes " " <> rounds_text rounds earlier) f.new }
{
    if earlier == 0 {
        write!(f, " {rounds}")
    } else {
        write!(f, " {rounds}:{earlier}")
    }
}

// An element, behind a space.
fn element<W: fmt::Write>(f: &mut fmt::Formatter<W>, element: &Element) -> fmt::Result
    ensures { WritesOnOk W.write_str_gives f.old result (spaced (element_words element.now)) f.new }
{
    let root = element.root;
    place(f, element.stage, &element.body)?;
    write!(f, " {root}")?;
    number(f, "client", element.by)?;
    number(f, "nobody", element.owner)?;
    rounds(f, element.rounds, element.earlier)?;
    status(f, element.status)
}

// ---- workers and clients

// How a unit of work ended, behind a space.
fn ended<W: fmt::Write>(f: &mut fmt::Formatter<W>, end: UnitEnd) -> fmt::Result
    ensures { WritesOnOk W.write_str_gives f.old result (spaced (end_words end)) f.new }
{
    match end {
        UnitEnd::Done {
            id,
            unit,
            first,
            count,
        } => write!(f, " done {id} {unit} {first} {count}"),
        UnitEnd::Aborted { id } => write!(f, " aborted {id}"),
        UnitEnd::Lost { id } => write!(f, " lost {id}"),
    }
}

// A name, or `-` where there is none, behind a space.
fn name_or_none<W: fmt::Write>(f: &mut fmt::Formatter<W>, name: &Option<Name>) -> fmt::Result
    ensures { WritesOnOk W.write_str_gives f.old result (codes " " <> name_text name.now) f.new }
{
    match name {
        None => write!(f, " -"),
        Some(name) => {
            let letters = name.as_str();
            write!(f, " {letters}")
        }
    }
}

// What is noted of a client, behind a space.
fn noted<W: fmt::Write>(f: &mut fmt::Formatter<W>, note: &ClientNote) -> fmt::Result
    ensures { WritesOnOk W.write_str_gives f.old result (spaced (note_words note.now)) f.new }
{
    let (owner, sent, element) = (note.owner, note.sent, note.element);
    let (received, reply, root, epoch) = (note.received, note.reply, note.root, note.epoch);
    write!(f, " {owner} {sent} {element} {received} {reply} {root} ")?;
    body(f, &note.body)?;
    write!(f, " {epoch}")?;
    place(f, note.sent_stage, &note.sent_body)?;
    name_or_none(f, &note.note)
}

// ---- all of them

impl fmt::Display for HeadLine {
    ghost output = { λ l. Some (head_text l) };

    fn fmt<W: fmt::Write>(&self, f: &mut fmt::Formatter<W>) -> fmt::Result {
        match self {
            HeadLine::Limit { attempts } => write!(f, "limit {attempts}"),
            HeadLine::Max { elements } => write!(f, "max {elements}"),
            HeadLine::Keep { requests } => write!(f, "keep {requests}"),
            HeadLine::Server(line) => {
                write!(f, "server")?;
                server(f, line)
            }
            HeadLine::Start { name, k, value } => {
                let name = name.as_str();
                write!(f, "start {name} {k} {value}")
            }
            HeadLine::Worker { name, stage } => {
                let name = name.as_str();
                write!(f, "worker {name} {stage}")
            }
            HeadLine::Register { name } => {
                let name = name.as_str();
                write!(f, "register {name}")
            }
            HeadLine::Renew { name } => {
                let name = name.as_str();
                write!(f, "register {name} new")
            }
            HeadLine::Numbers {
                next,
                units,
                owners,
            } => write!(f, "numbers {next} {units} {owners}"),
            HeadLine::Element { id, element: it } => {
                write!(f, "element {id}")?;
                element(f, it)
            }
            HeadLine::Over { root } => write!(f, "over {root}"),
            HeadLine::Settled {
                stage,
                consumed,
                killed,
            } => write!(f, "settled {stage} {consumed} {killed}"),
            HeadLine::Hand {
                name,
                id,
                unit,
                tries,
            } => {
                let name = name.as_str();
                write!(f, "hand {name} {id} {unit} {tries}")
            }
            HeadLine::Prepared { name } => {
                let name = name.as_str();
                write!(f, "prepared {name}")
            }
            HeadLine::Dropped { name } => {
                let name = name.as_str();
                write!(f, "dropped {name}")
            }
            HeadLine::From { name, id } => {
                let name = name.as_str();
                write!(f, "from {name} {id}")
            }
            HeadLine::Ended { name, end } => {
                let name = name.as_str();
                write!(f, "ended {name}")?;
                ended(f, *end)
            }
            HeadLine::Client { name, note } => {
                let name = name.as_str();
                write!(f, "client {name}")?;
                noted(f, note)
            }
        }
    }
}
