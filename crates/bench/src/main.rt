// Works the delivered banks over 1,024 octets, for tools/bench-aes.py to time: `bench ctr COUNT` and
// `bench mac COUNT` make COUNT calls, and print what they leave. With no words it does nothing.
#![tactic(auto)]

use anyhow::{Context, bail};
use banks::cipher::{CipherAlgorithm, CipherBank, Mea1};
use banks::delivered::delivered;
use banks::tag::{Mia1, TagAlgorithm, TagBank};
use keys::{Iv, Key};
use std::env;

const SIZE: usize = 1024;

const KEY: Key = Key { high: 1, low: 2 };

const IV: Iv = Iv { counter: 3 };

// An octet of what so many calls leave: it is printed, so that none can be left out.
fn ciphered(count: u32) -> u8 {
    let mut banks = delivered();
    let mut octets = [0; SIZE];
    for _ in 0..count {
        banks.ciphers.run(Mea1::NUMBER, &KEY, &IV, &mut octets);
    }
    octets[0]
}

// The tags of so many calls, added up.
fn tagged(count: u32) -> u32 {
    let mut banks = delivered();
    let mut octets = [0; SIZE];
    let mut last = 0;
    for i in 0..count {
        octets[0] = (i % 256) as u8;
        last ^= banks
            .tags
            .tag(Mia1::NUMBER, &KEY, &octets[0..16], &octets[16..SIZE]);
    }
    last
}

// What the calls of a mode leave.
fn left(mode: &str, count: u32) -> anyhow::Result<u32> {
    match mode {
        "ctr" => Ok(u32::from(ciphered(count))),
        "mac" => Ok(tagged(count)),
        _ => bail!("expected ctr or mac"),
    }
}

fn run(rt: &HostRuntime) -> anyhow::Result<()> {
    let mut words = env::args(rt)?;
    let _ = words.next();
    let Some(mode) = words.next() else {
        return Ok(());
    };
    let count = words.next().context("expected a count")?;
    let left = left(mode.as_str(), count.as_str().parse::<u32>()?)?;
    println!(rt; "{left}")?;
    Ok(())
}

fn main(rt: HostRuntime) -> anyhow::Result<()> {
    run(&rt)
}
