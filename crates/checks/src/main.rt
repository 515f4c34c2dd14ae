// Executes worked cases on two rehearsed stations over the delivered banks, and prints one line to a case.
// Those that follow from the definitions by computation are proved instead, as one statement.
// Each file that is named has messages that an outside AES made.
#![tactic(auto)]

mod outside;
mod replays;
mod setup;
mod worked;

use std::env;

fn run(rt: &HostRuntime) -> anyhow::Result<()> {
    worked::worked_cases();
    println!(rt; "the worked cases that follow by computation: proved")?;
    replays::heard_again(rt)?;
    replays::one_place(rt)?;
    for file in env::args(rt)?.skip(1) {
        outside::print_cases(rt, file.as_str())?;
    }
    Ok(())
}

fn main(rt: HostRuntime) -> anyhow::Result<()> {
    run(&rt)
}
