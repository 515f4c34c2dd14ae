// Messages that come again, and a memory that is full.
use crate::setup::{INVOKE, answers, association, beginning, protects, receives};
use anyhow::anyhow;
use cases::KEY;
use rehearsal::log::{Answer, Line};
use std::alloc::Global;

// The lines before the cases, at reading 900.
fn start<'a>(heap: Global) -> anyhow::Result<Vec<Line<'a>>> {
    beginning(heap, 900, association(4, KEY, KEY, 900))
}

// The message that A makes of a cleartext at a reading.
fn message(heap: Global, reading: u64, cleartext: &[u8]) -> anyhow::Result<Vec<u8>> {
    let mut log = start(heap)?;
    log.push(protects(reading, INVOKE, cleartext))?;
    match answers(heap, 1, log.as_slice())?.pop() {
        Some(Answer::Sent { mode: _, message }) => Ok(message),
        _ => Err(anyhow!("A sends nothing")),
    }
}

// An answer in words.
fn print_answer(rt: &HostRuntime, case: &str, answer: &Answer) -> anyhow::Result<()> {
    match answer {
        Answer::Handed {
            component: _,
            mode,
            cleartext,
            report: _,
        } => {
            let (mode, count) = (mode.number(), cleartext.len());
            println!(rt; "{case}: handed on in mode {mode}, octets {count}")?;
        }
        Answer::Refused { refusal, report: _ } => {
            let (number, place) = (refusal.number(), refusal.place());
            println!(rt; "{case}: refused {number} place {place}")?;
        }
        _ => println!(rt; "{case}: neither handed on nor refused")?,
    }
    Ok(())
}

// A message that B receives at a reading.
#[derive(Clone, Copy)]
struct Receipt<'a> {
    case: &'static str,
    reading: u64,
    message: &'a [u8],
}

// What B answers to messages, where it has so many places for heard ones.
fn print_receipts(rt: &HostRuntime, heard: usize, receipts: &[Receipt<'_>]) -> anyhow::Result<()> {
    let heap = rt.alloc();
    let mut log = start(heap)?;
    let first = log.len();
    for receipt in receipts {
        log.push(receives(receipt.reading, receipt.message))?;
    }
    let answers = answers(heap, heard, log.as_slice())?;
    for (receipt, answer) in receipts.iter().zip(answers.iter().skip(first)) {
        print_answer(rt, receipt.case, answer)?;
    }
    Ok(())
}

// A message that was handed on comes again: within its window, and one tick past it.
pub fn heard_again(rt: &HostRuntime) -> anyhow::Result<()> {
    let sent = message(rt.alloc(), 1_000, &[0xaa])?;
    let message = sent.as_slice();
    print_receipts(
        rt,
        4_096,
        &[
            Receipt {
                case: "stamp 1000, received at 1000",
                reading: 1_000,
                message,
            },
            Receipt {
                case: "the same again at 1300",
                reading: 1_300,
                message,
            },
            Receipt {
                case: "the same again at 1301",
                reading: 1_301,
                message,
            },
        ],
    )
}

// With one place for heard messages another one waits until the last tick of the first is past.
pub fn one_place(rt: &HostRuntime) -> anyhow::Result<()> {
    let first = message(rt.alloc(), 1_000, &[0xaa])?;
    let second = message(rt.alloc(), 1_300, &[0xbb])?;
    print_receipts(
        rt,
        1,
        &[
            Receipt {
                case: "one place, stamp 1000, received at 1000",
                reading: 1_000,
                message: first.as_slice(),
            },
            Receipt {
                case: "another message at 1300",
                reading: 1_300,
                message: second.as_slice(),
            },
            Receipt {
                case: "another message at 1301",
                reading: 1_301,
                message: second.as_slice(),
            },
        ],
    )
}
