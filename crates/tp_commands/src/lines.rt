//! Lines about servers: what one answered, and what registers hold.
ghost use Rattle.std.specs.List.{zip};
ghost use Rattle.std.specs.Prelude.{◌≡◌, ◌<◌, IfOk, IfSome, length, slice_get, string_bytes, sum_by};
ghost use Rattle.tp_report.specs.Answer.{line, named_text};
ghost use Rattle.tp_report.specs.Lines.{IsLine};
ghost use Rattle.tp_commands.specs.Registers.{TellsBalance};
ghost use Rattle.tp_commands.specs.Registers.{counted_value, value_at};

use crate::place::Place;
use std::alloc::{AllocError, Global};
use std::string::String;
use tp_report::{Answer, ServerAnswer, line};
use tp_script::ScriptServer;
use tp_server::Server;

/// The sum of a register over the servers that have it and whose desks weren't dropped.
pub fn sum(servers: &[Box<dyn Server + Send>], places: &[Place], k: u64) -> u128
    requires { length servers.now ≡ length places.now }
    ensures { result ≡ sum_by (value_at registers k) (zip servers.now places.now) }
{
    let mut sum = 0;
    for i in 0..places.len() {
        sum += u128::from(counted_value(&servers[i], places[i].is_dropped, k));
    }
    sum
}

/// What a server adds to the sum of a register.
fn counted_value(server: &Box<dyn Server + Send>, is_dropped: bool, k: u64) -> u64
    ensures { result ≡ counted_value is_dropped (slice_get (registers server.now) k) }
{
    if is_dropped {
        return 0;
    }
    match server.balance(k) {
        Some(value) => value,
        None => 0,
    }
}

/// The line of an answer of the server at a place.
pub(crate) fn server_line(
    alloc: Global,
    servers: &[ScriptServer],
    server: usize,
    answer: ServerAnswer,
) -> Result<String, AllocError>
    requires { server < length servers.now }
    ensures text { IfOk result (λ text. IfSome (slice_get servers.now server)
        (λ it. string_bytes text ≡ line (named_text (string_bytes it.name) answer))) }
    ensures line { IfOk result (λ text. IsLine (string_bytes text)) }
{
    let name = servers[server].name.as_str();
    line(alloc, Answer::Server { name, answer })
}

/// The line of `balance NAME K`.
pub fn balance_line(
    alloc: Global,
    named: &ScriptServer,
    server: &Box<dyn Server + Send>,
    is_dropped: bool,
    k: u64,
) -> Result<String, AllocError>
    ensures text { IfOk result (λ text.
        TellsBalance (string_bytes named.now.name) k (registers server.now) is_dropped (string_bytes text)) }
    ensures line { IfOk result (λ text. IsLine (string_bytes text)) }
{
    let name = named.name.as_str();
    if is_dropped {
        let answer = ServerAnswer::Ended;
        return line(alloc, Answer::Server { name, answer });
    }
    let value = server.balance(k);
    line(alloc, Answer::Balance { name, k, value })
}
