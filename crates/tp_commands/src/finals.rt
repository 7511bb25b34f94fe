//! The final lines: what each server's registers hold at the end.
ghost use Rattle.std.specs.Prelude.{◌≡◌, ◌<◌, IfOk, length, map, slice_get, string_bytes};
ghost use Rattle.tp_report.specs.Answer.{final_text, line};
ghost use Rattle.tp_commands.specs.Ending.{final_line as line_at};
ghost use Rattle.tp_script.specs.Script.{head_view};

use std::alloc::{AllocError, Global};
use std::string::String;
use tp_report::{Answer, line};
use tp_script::Head;
use tp_server::Server;

/// How many registers a server has.
fn register_count(server: &Box<dyn Server + Send>) -> u64
    ensures { result ≡ length (registers server.now) }
{
    server.count()
}

/// A server's register of committed work, or `None` past the last one.
fn register(server: &Box<dyn Server + Send>, k: u64) -> Option<u64>
    ensures { result ≡ slice_get (registers server.now) k }
{
    server.balance(k)
}

/// The registers of committed work of a server, in order.
pub fn registers_of(alloc: Global, server: &Box<dyn Server + Send>) -> Result<Vec<u64>, AllocError>
    ensures { IfOk result (λ values. values.items ≡ registers server.now) }
{
    let mut values = Vec::new(alloc);
    for k in 0..register_count(server) {
        if let Some(value) = register(server, k) {
            values.push(value)?;
        }
    }
    Ok(values)
}

/// The final line of the server of this name: its registers of committed work, in order.
fn final_line(
    alloc: Global,
    name: &str,
    server: &Box<dyn Server + Send>,
) -> Result<String, AllocError>
    ensures { IfOk result (λ text.
        string_bytes text ≡ line (final_text name.now (registers server.now))) }
{
    let values = registers_of(alloc, server)?;
    let registers = values.as_slice();
    line(alloc, Answer::Final { name, registers })
}

/// The final line of the server at a place.
pub fn line_of(
    alloc: Global,
    head: &Head,
    servers: &[Box<dyn Server + Send>],
    i: usize,
) -> Result<String, AllocError>
    requires within { i < length servers.now }
    requires all { length servers.now ≡ length head.now.servers.items }
    ensures { IfOk result (λ text. string_bytes text
        ≡ line_at (slice_get (head_view head.now).servers i)
        (slice_get (map (λ server. registers server) servers.now) i)) }
{
    final_line(alloc, head.servers[i].name.as_str(), &servers[i])
}
