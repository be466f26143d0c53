// Requests of 13 bytes to the record's end: kind (1 byte), code, process and edge (4 each); and the line of each answer.

use crate::record::{byte_at, number_at, requests_in};
use machine::Done;
use plan::Plan;
use refusals::{Reason, Request};
use state::State;
use std::fmt;

// What a request asks for.
#[derive(Clone, Copy, Drop)]
enum Kind {
    Call,
    Reading,
    Beginning,
}

impl From<u8> for Kind {
    fn from(byte: u8) -> Kind {
        match byte {
            0 => Kind::Call,
            1 => Kind::Reading,
            _ => Kind::Beginning,
        }
    }
}

// What a call did, or what it was refused with. The words are those of `lines`, which puts them byte by byte as its proof counts them.
fn put_reply(out: &mut impl fmt::Write, reply: Result<Done, Reason>) -> fmt::Result {
    match reply {
        Ok(Done::Opened { edges }) => writeln!(out, "opened {edges}"),
        Ok(Done::Found { left }) => writeln!(out, "found {left}"),
        Ok(Done::Wait { left }) => writeln!(out, "wait {left}"),
        Ok(Done::Fired { node }) => writeln!(out, "fired {node}"),
        Err(reason) => put_refusal(out, reason),
    }
}

// A token reading's answer.
fn put_level(out: &mut impl fmt::Write, level: Result<u32, Reason>) -> fmt::Result {
    match level {
        Ok(count) => writeln!(out, "tokens {count}"),
        Err(reason) => put_refusal(out, reason),
    }
}

// A beginning's answer: 0, or the number that it is refused with.
fn put_began(out: &mut impl fmt::Write, number: u32) -> fmt::Result {
    if number == 0 {
        return writeln!(out, "begun");
    }
    writeln!(out, "refused {number}")
}

// A refusal, by its number.
fn put_refusal(out: &mut impl fmt::Write, reason: Reason) -> fmt::Result {
    let number = u32::from(reason);
    writeln!(out, "refused {number}")
}

// One request: its line, and the state that it leaves, which is stored where it stands.
fn put_request(
    out: &mut impl fmt::Write,
    plan: &Plan,
    state: &mut State,
    request: &[u8],
) -> fmt::Result {
    let edge = number_at(request, 9);
    match Kind::from(byte_at(request, 0)) {
        Kind::Call => {
            let call = Request {
                code: number_at(request, 1),
                process: number_at(request, 5),
                edge,
            };
            let turned = calls::step(*plan, *state, call);
            *state = turned.state;
            put_reply(out, turned.reply)
        }
        Kind::Reading => put_level(out, calls::token_reading(*plan, *state, edge)),
        Kind::Beginning => {
            let began = calls::begin(*plan);
            *state = began.state;
            put_began(out, began.number)
        }
    }
}

// All requests of a record, and the state that they leave.
pub fn put_requests(
    out: &mut impl fmt::Write,
    plan: &Plan,
    state: &mut State,
    record: &[u8],
) -> fmt::Result {
    for request in requests_in(record).chunks(13) {
        put_request(out, plan, state, request)?;
    }
    Ok(())
}
