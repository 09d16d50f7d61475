//! `leasecheck`: the create contexts and break messages of SMB 2.1 leases, on the command line.
//!
//! `leasecheck ack HEX` prints the acknowledgment that a lease break notification asks for, and
//! `leasecheck show KIND HEX` what create contexts or a break message hold. The whole text is made
//! before anything is written, but for the record of a run, which is written in blocks once all of it
//! is there and judged. A refusal is one line on standard error, and mostly a second one that says
//! more of it. So
//!
//! ```text
//! leasecheck show ack 2400000000000000000102030405060708090a0b0c0d0e0f030000000000000000000000
//! ```
//!
//! prints `ack 00010203-0405-0607-0809-0a0b0c0d0e0f RH`; the tests have it, and more.
#![tactic(auto)]

mod capturing;
mod command_line;
mod comments;
mod conversing;
mod drawing;
mod explaining;
mod failure;
mod file_fault;
mod help;
mod hexadecimal;
mod idle;
mod judging;
mod messages;
mod objects;
mod printing;
mod reading;
mod recording;
mod refusal;
mod remarks;
mod replaying;
mod run;
mod tasks;
mod wire;

use run::run_words;
use std::process::ExitCode;
use std::rt::Env;
use std::{env, io};

// The words after the program's name. An argument that is no text is an error.
fn words_given<R: Env + AllocGlobal>(rt: &R) -> io::Result<Vec<String>> {
    let words: Vec<String> = env::args(rt)?.skip(1).collect(rt.alloc())?;
    Ok(words)
}

fn main(rt: HostRuntime) -> ExitCode {
    let given = words_given(&rt);
    let (mut out, mut faults) = (io::writer(&rt), rt.stderr());
    ExitCode::from(run_words(&rt, given, &mut out, &mut faults))
}
