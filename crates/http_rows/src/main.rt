//! The program `http_rows`: reads the messages of rows on standard input, whole, byte by byte and cut at their places, and
//! writes messages, and prints what came of each row below it.
#![tactic(auto)]

mod answers;
mod byte_source;
mod input;
mod written;

use answers::{Message, put_answers};
use input::bytes_of_parts;
use row_text::{Failure, Rows, show_rows};
use std::alloc::Global;
use std::process::ExitCode;
use written::{request_shown, response_shown};

#[derive(Drop)]
struct HttpRows;

impl Rows for HttpRows {
    fn shown(&self, alloc: Global, row: &str) -> Result<String, Failure> {
        let (kind, rest) = row.split_once('|').ok_or(Failure::Row)?;
        let (first, parts) = rest.split_once('|').ok_or(Failure::Row)?;
        let bytes = bytes_of_parts(alloc, parts)?;
        match kind {
            "response" => answers_of(alloc, Message::Response, first, bytes.as_slice()),
            "request" => answers_of(alloc, Message::Request, first, bytes.as_slice()),
            "to" => request_shown(alloc, first, bytes.as_slice()),
            "status" => response_shown(alloc, first, bytes.as_slice()),
            _ => Err(Failure::Row),
        }
    }
}

fn answers_of(
    alloc: Global,
    message: Message,
    limit: &str,
    bytes: &[u8],
) -> Result<String, Failure> {
    let mut text = String::new(alloc);
    put_answers(alloc, &mut text, message, limit.parse::<u64>()?, bytes)?;
    Ok(text)
}

fn main(rt: HostRuntime) -> ExitCode {
    show_rows(&rt, "http_rows", &HttpRows)
}
