// Answers AES requests, a line each, with a line of hex digits each:
//   ecb KEY BLOCK, cbc KEY IV OCTETS, ctr KEY IV OCTETS, mac KEY FIRST SECOND, expand KEY
// Octets are pairs of hex digits, `-` for none; a line that is empty or begins with `#` is passed over.
#![tactic(auto)]

use anyhow::anyhow;
use std::alloc::Global;
use std::io::{BufRead, BufReader};

mod fault;
mod modes;
mod request;
mod written;

use request::Request;

// The answer to a line, or none to a comment.
fn answer(heap: Global, line: &str) -> Result<Option<String>, fault::Fault> {
    if line.is_empty() || line.starts_with('#') {
        return Ok(None);
    }
    let octets = request::read(heap, line)?.answer(heap)?;
    Ok(Some(written::write(heap, octets.as_slice())?))
}

fn run(rt: &HostRuntime) -> anyhow::Result<()> {
    let heap = rt.alloc();
    let lines = BufReader::new(heap, rt.stdin())?.lines(heap);
    for (number, line) in (1u64..).zip(lines) {
        let line = line?;
        match answer(heap, line.as_str()) {
            Ok(Some(text)) => println!(rt; "{text}")?,
            Ok(None) => {}
            Err(fault) => return Err(anyhow!("line {number}: {fault}")),
        }
    }
    Ok(())
}

fn main(rt: HostRuntime) -> anyhow::Result<()> {
    run(&rt)
}
