//! The lines that make servers.
ghost use Rattle.tp_model.specs.declared.types.TheConstants.{MAX_OUTPUTS};
ghost use Rattle.std.specs.Prelude.{◌≡◌, ◌≤◌, ◌<◌, map, length, IfOk, IfSome, OnOk, position, vec_len};
ghost use Rattle.std.specs.Prelude.{string_bytes, replicate, Ok, is_ok};
ghost use Rattle.std.specs.Str.{bytes_eq};
ghost use Rattle.tp_server.specs.Check.{check_of};
ghost use Rattle.tp_script.specs.LineWords.{of_three_words};
ghost use Rattle.tp_script.specs.Reading.{Gives, GivesHead, shape_view};
ghost use Rattle.tp_script.specs.Script.{head_view, server_view};
ghost use Rattle.tp_script.specs.ServerLines.{new_name, server_at, shape_at};
ghost use Rattle.tp_script.specs.ServerLines.{recipe_at, registers_for};
ghost use Rattle.tp_script.specs.ServerLines.{server_line, server_said, with_server, with_start, begin_at};
ghost use Rattle.tp_script.specs.ServerLines.{start_line};
ghost use Rattle.tp_script.specs.declared.script.TheConstants.{MAX_SERVERS};

use crate::fault::{LineError, LineFault};
use crate::head::Head;
use crate::line_words::{
    act_at, all_outputs, is_name, kind_at, name_text, number_at, outputs_at, three,
};
use crate::script::{Kind, MAX_SERVERS, ScriptServer};
use std::alloc::Global;
use std::string::String;
use tp_model::types::MAX_OUTPUTS;
use tp_server::{Act, Recipe, Registers};

/// The words of a server line, each in its place.
#[derive(Clone, Copy)]
pub(crate) struct Shape<'a> {
    name: &'a [u8],
    kind: Kind,
    stage: &'a [u8],
    registers: &'a [u8],
    act: Act,
    word: u8,
    outputs: &'a [&'a [u8]],
}

/// NAME KIND STAGE REGISTERS ACT OUT..
#[tactic(auto, unfolding(crate::specs::ServerLines::shape_at))]
pub(crate) fn shape_at<'a>(alloc: Global, words: &'a [&'a [u8]]) -> Result<Shape<'a>, LineError>
    ensures gives { Gives shape_view result (shape_at (map (λ x. x.now) words.now)) }
    ensures few { IfOk result (λ shape. length shape.outputs.now ≤ MAX_OUTPUTS) }
{
    let [name, kind, stage, registers, act, outputs @ ..] = words else {
        return Err(LineFault::Syntax.into());
    };
    let kind = kind_at(kind)?;
    let (act, word) = act_at(alloc, act)?;
    if outputs.len() > MAX_OUTPUTS || !all_outputs(outputs) {
        return Err(LineFault::Syntax.into());
    }
    Ok(Shape {
        name,
        kind,
        stage,
        registers,
        act,
        word,
        outputs,
    })
}

// The numbers of a server line.
#[tactic(auto, unfolding(crate::specs::ServerLines::recipe_at))]
fn recipe_at(alloc: Global, shape: &Shape<'_>) -> Result<Recipe, LineError>
    requires { length shape.now.outputs.now ≤ MAX_OUTPUTS }
    ensures { Gives (λ r. r) result (recipe_at (shape_view shape.now)) }
{
    let stage = number_at(shape.stage, 255)? as u8;
    let registers = number_at(shape.registers, 255)? as u8;
    let outputs = outputs_at(alloc, shape.outputs)?;
    let act = shape.act;
    let word = shape.word;
    Ok(Recipe {
        stage,
        registers,
        act,
        word,
        outputs,
    })
}

// The registers of a good recipe, all zero.
#[tactic(auto, unfolding(crate::specs::ServerLines::registers_for))]
fn registers_for(recipe: &Recipe) -> Result<Registers, LineError>
    ensures gives { Gives (λ r. r) result (registers_for recipe.now) }
    ensures checked { OnOk result (check_of recipe.now ≡ Ok tt) }
    ensures counted { IfOk result (λ r. length r ≡ recipe.now.registers) }
{
    match recipe.check() {
        Ok(()) => match Registers::new(recipe.registers) {
            Some(registers) => Ok(registers),
            None => unreachable!(),
        },
        Err(_) => Err(LineFault::BadRecipe.into()),
    }
}

impl Head {
    // The place of the server of this name in memory.
    fn find(&self, name: &[u8]) -> Option<usize>
        ensures found { result ≡ position (λ server.
            bytes_eq (string_bytes server.name) name.now) self.now.servers.items }
        ensures within { IfSome result (λ i. i < vec_len self.now.servers) }
    {
        self.servers
            .iter()
            .position(|server| server.name.as_bytes() == name)
    }

    // The same in the head as contracts see it: names are their bytes there.
    fn place(&self, name: &[u8]) -> Option<usize>
        ensures found { result ≡ position (λ server. bytes_eq server.name name.now)
            (head_view self.now).servers }
        ensures within { IfSome result (λ i. i < vec_len self.now.servers) }
    {
        self.find(name)
    }

    /// The place of the server of this name.
    pub(crate) fn server_at(&self, name: &[u8]) -> Result<usize, LineError>
        ensures gives { Gives (λ x. x) result (server_at name.now (head_view self.now)) }
        ensures within { IfOk result (λ i. i < vec_len self.now.servers) }
    {
        match self.place(name) {
            Some(i) => Ok(i),
            None => Err(LineFault::BadName.into()),
        }
    }

    // A name that no server has.
    #[tactic(auto, unfolding(crate::specs::ServerLines::new_name))]
    fn new_name(&self, alloc: Global, name: &[u8]) -> Result<String, LineError>
        ensures { Gives (λ x. string_bytes x) result (new_name name.now (head_view self.now)) }
    {
        if !is_name(name) || self.place(name).is_some() {
            return Err(LineFault::BadName.into());
        }
        Ok(String::from_str(alloc, name_text(name))?)
    }

    // Adds a server.
    fn with_server(&mut self, server: ScriptServer) -> Result<(), LineError>
        requires { vec_len self.old.servers < MAX_SERVERS }
        ensures gives { GivesHead self.new result
            (Ok (with_server (server_view server) (head_view self.old))) }
    {
        self.servers.push(server)?;
        Ok(())
    }

    // The server that such words make, where there is room for it.
    #[tactic(auto, unfolding(crate::specs::ServerLines::server_said))]
    fn server_said(&self, alloc: Global, words: &[&[u8]]) -> Result<ScriptServer, LineError>
        ensures gives { Gives server_view result (server_said (map (λ x. x.now) words.now)
            (head_view self.now)) }
        ensures room { IfOk result (λ _. vec_len self.now.servers < MAX_SERVERS) }
    {
        let shape = shape_at(alloc, words)?;
        let name = self.new_name(alloc, shape.name)?;
        let recipe = recipe_at(alloc, &shape)?;
        if self.servers.len() >= MAX_SERVERS {
            return Err(LineFault::BadLimits.into());
        }
        let registers = registers_for(&recipe)?;
        let kind = shape.kind;
        Ok(ScriptServer {
            name,
            kind,
            recipe,
            registers,
        })
    }

    /// `server NAME KIND STAGE REGISTERS ACT OUT..`
    #[tactic(auto, unfolding(crate::specs::ServerLines::server_line))]
    pub(crate) fn server_line(&mut self, alloc: Global, words: &[&[u8]]) -> Result<(), LineError>
        ensures gives { GivesHead self.new result (server_line (map (λ x. x.now) words.now)
            (head_view self.old)) }
    {
        let server = self.server_said(alloc, words)?;
        self.with_server(server)
    }

    /// `start NAME K V`
    #[tactic(auto, unfolding(crate::specs::ServerLines::start_line))]
    pub(crate) fn start_line(&mut self, words: &[&[u8]]) -> Result<(), LineError>
        ensures gives { GivesHead self.new result
            (of_three_words (λ w. start_line w (head_view self.old)) (map (λ x. x.now) words.now)) }
    {
        let (name, k, v) = three(words)?;
        if !is_name(name) {
            return Err(LineFault::BadName.into());
        }
        let server = self.server_at(name)?;
        let k = number_at(k, u64::MAX)?;
        let v = number_at(v, u64::MAX)?;
        self.begin_at(server, k, v)
    }

    // Register k of the server at a place begins with v.
    fn begin_at(&mut self, place: usize, k: u64, v: u64) -> Result<(), LineError>
        requires { place < vec_len self.old.servers }
        ensures gives { GivesHead self.new result (begin_at place k v (head_view self.old)) }
    {
        self.servers[place].begin(k, v)
    }
}

impl ScriptServer {
    // Register k begins with v.
    #[tactic(auto, unfolding(crate::specs::ServerLines::with_start))]
    fn begin(&mut self, k: u64, v: u64) -> Result<(), LineError>
        ensures gives { Gives (λ _. server_view self.new) result (with_start k v (server_view self.old)) }
    {
        if k >= u64::from(self.registers.len()) {
            return Err(LineFault::BadRecipe.into());
        }
        self.registers.set(k, v);
        Ok(())
    }
}
