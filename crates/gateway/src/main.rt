// The gateway: reads statements, a line each, from the files that are named, or from standard
// input, and answers on standard output.
#![tactic(auto)]

mod answers;
mod hex;
mod run;
mod site;

use run::{Stopped, serve};
use site::memory_of_both;
use std::process::ExitCode;

/// Lends each station its memory, and runs.
fn gateway(rt: &HostRuntime) -> Result<(), Stopped> {
    let mut memory = match memory_of_both(rt.alloc()) {
        Ok(memory) => memory,
        Err(error) => {
            let _ = eprintln!(rt; "gateway: there is no memory for the places: {error}");
            return Err(Stopped);
        }
    };
    serve(rt, &mut memory)
}

fn main(rt: HostRuntime) -> ExitCode {
    match gateway(&rt) {
        Ok(()) => ExitCode::SUCCESS,
        Err(Stopped) => ExitCode::FAILURE,
    }
}
