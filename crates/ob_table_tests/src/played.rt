//! Worked cases are played over each handle table.

ghost use Rattle.ob_lines.specs.Grammar.{HasTexts, request_seen};

use crate::cases::CASES;
use ob_base::{Proc, Status};
use ob_core::{Core, Given, HandleTable, OpenTable, Reply, SlabTable};
use ob_lines::{Form, Request, read_line};
use ob_requests::{Variables, command_of};
use ob_runner::run_command;
use ob_standard::Standard;
use std::alloc::Global;
use std::mem;

/// A namespace over a handle table, and the variables of a script.
#[derive(Drop)]
struct Player<H: HandleTable> {
    alloc: Global,
    core: Core<Standard, H>,
    variables: Variables,
}

/// The reply to a request of a process, which changes the variables; none without memory.
fn reply_to<H: HandleTable>(
    player: &mut Player<H>,
    process: Proc,
    request: &Request<&[u8]>,
) -> Option<Reply>
    requires { HasTexts (request_seen request.now) }
{
    let Ok((command, change)) = command_of(&mut player.variables, process, request) else {
        return None;
    };
    let reply = run_command(&mut player.core, player.alloc, process, &command);
    mem::drop(command);
    let Ok(reply) = reply else {
        return None;
    };
    player.variables.apply(process, change, &reply);
    Some(reply)
}

/// The reply to a line; none of a line that asks for no command.
fn answer<H: HandleTable>(player: &mut Player<H>, line: &str) -> Option<Reply> {
    match read_line(line.as_bytes()) {
        Some((Some(Form::Asks { process, request }), _)) => {
            let process = player.variables.process_of(process);
            reply_to(player, process, &request)
        }
        _ => None,
    }
}

/// Adds bytes to a text, if there is memory.
fn push(text: &mut Vec<u8>, bytes: &[u8]) {
    let _ = text.extend_from_slice(bytes);
}

/// Adds a space and a text in quotes.
fn push_quoted(text: &mut Vec<u8>, bytes: &[u8]) {
    push(text, b" \"");
    push(text, bytes);
    push(text, b"\"");
}

/// Adds the digit by which a type refuses.
fn push_reason(text: &mut Vec<u8>, status: Status) {
    if let Status::TypeRefused(code) = status
        && let Some(digit) = b"0123456789".get(code as usize)
    {
        push(text, b" ");
        push(text, &[*digit]);
    }
}

/// A reply as the program prints it.
fn printed(alloc: Global, reply: &Reply) -> Vec<u8> {
    let mut text = Vec::new(alloc);
    push(&mut text, reply.status.text().as_bytes());
    push_reason(&mut text, reply.status);
    match &reply.given {
        Given::Text(given) => push_quoted(&mut text, given.as_slice()),
        Given::Page { entries, .. } => {
            for entry in entries.as_slice() {
                push_quoted(&mut text, entry.name.as_slice());
                push(&mut text, b" ");
                push(&mut text, entry.type_name.as_str().as_bytes());
            }
        }
        _ => {}
    }
    text
}

/// Whether the reply to a line is the one that its row says.
fn is_played<H: HandleTable>(player: &mut Player<H>, row: &str) -> bool {
    let Some((line, wanted)) = row.split_once(" | ") else {
        return false;
    };
    match answer(player, line) {
        Some(reply) => {
            let text = printed(player.alloc, &reply);
            mem::drop(reply);
            text.as_slice() == wanted.as_bytes()
        }
        None => false,
    }
}

/// The first row of a case whose reply is another; empty if there is none.
fn first_other<'a, H: HandleTable>(player: &mut Player<H>, case: &'a str) -> &'a str {
    for row in case.lines() {
        if !row.starts_with('#') && !is_played(player, row) {
            return row;
        }
    }
    ""
}

/// A namespace in the opening state; none without memory.
fn player_of<H: HandleTable>(alloc: Global) -> Option<Player<H>> {
    let Ok(variables) = Variables::new(alloc) else {
        return None;
    };
    match Core::new(alloc, Standard::new()) {
        Ok(core) => Some(Player {
            alloc,
            core,
            variables,
        }),
        Err(_) => None,
    }
}

/// The first row of all cases whose reply is another.
fn first_other_of<H: HandleTable>(alloc: Global) -> &'static str {
    for case in CASES.split("\n\n") {
        let Some(mut player) = player_of::<H>(alloc) else {
            return case;
        };
        let row = first_other(&mut player, case);
        mem::drop(player);
        if !row.is_empty() {
            return row;
        }
    }
    ""
}

#[test]
fn worked_cases_are_answered_alike_over_both_tables(rt: HostRuntime) {
    let over_maps = first_other_of::<OpenTable>(rt.alloc());
    let over_a_slab = first_other_of::<SlabTable>(rt.alloc());
    assert_eq!(rt;
        (over_maps, over_a_slab),
        ("", ""),
        "over an OpenTable, and over a SlabTable"
    );
}
