//! The calls of an atlas, one after another, as a program: each says what it answered, and one that
//! found no memory is made again. `tools/fail_memory` runs it with each of its allocations refused
//! in turn.
#![tactic(auto)]

mod calls;
mod cells;

use calls::{all_calls, started};
use std::process::ExitCode;

// The status says whether each line could be written.
fn main(rt: HostRuntime) -> ExitCode {
    let alloc = rt.alloc();
    let Some((atlas, pass)) = started(&rt, &rt, alloc) else {
        return ExitCode::from(3);
    };
    match all_calls(&rt, &rt, alloc, &atlas, pass) {
        Ok(()) => ExitCode::SUCCESS,
        Err(_) => ExitCode::from(5),
    }
}
