// The lister: sheet blocks come in on standard input, and a line for each of their words goes out.
#![tactic(auto)]

mod pieces;
mod reading;
mod report;
mod runs;

use crate::pieces::{Ending, list_all};
use crate::report::Counts;
use std::env::{Env, FillError};
use std::process::ExitCode;

// The status of a program that writes to a pipe which nobody reads any more, as a shell tells it.
const UNREAD: u8 = 141;

// Only a script that reads the report starts the program with an argument. Else descriptor 3 is whatever somebody left open, and not ours to write to.
fn main(rt: HostRuntime) -> ExitCode {
    let mut counts = Counts::new();
    match list_all(rt, &mut counts) {
        Ending::Complete { blocks, .. } if has_argument(rt) => counts.report(blocks),
        Ending::Unread => return ExitCode::from(UNREAD),
        _ => {}
    }
    ExitCode::SUCCESS
}

// Whether there is one after the program's name, however long it is.
fn has_argument(rt: HostRuntime) -> bool {
    let mut start = [0u8; 1];
    !matches!(rt.arg(1, &mut start), Err(FillError::NotPresent))
}
