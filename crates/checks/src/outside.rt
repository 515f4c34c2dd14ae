// Messages that an outside AES made: A has to build the same octets, and B has to read them.
// A line of the file is READING SPI KIND CODE MEK MIK PROP CLEARTEXT MESSAGE, numbers and octets as in the command language.
use crate::setup::{INVOKE, answers, association, beginning, protects, receives};
use anyhow::{Context, anyhow};
use rehearsal::log::Answer;
use rules::component::ComponentId;
use station::records::SecurityAssociation;
use std::alloc::Global;
use std::fs;
use words::fault::Fault;
use words::line::Line;
use words::numbers::octets;

// A line of the file, without its octets.
#[derive(Clone, Copy)]
struct Case {
    reading: u64,
    component: ComponentId,
    association: SecurityAssociation,
    // how many components A protects at this reading before
    prop: u8,
}

fn case_of(line: Line<'_>) -> Result<Case, Fault> {
    let reading = line.number(0)?;
    let spi = line.number(1)?;
    let kind = line.number(2)?;
    let code = line.number(3)?;
    let mek = line.key(4)?;
    let mik = line.key(5)?;
    let prop = line.number(6)?;
    Ok(Case {
        reading,
        component: ComponentId { kind, code },
        association: association(spi, mek, mik, reading),
        prop,
    })
}

// The octets at a place of a line.
fn octets_at(heap: Global, line: Line<'_>, place: usize) -> anyhow::Result<Vec<u8>> {
    octets(heap, line.word(place))?.context("there are no octets where they should be")
}

// What the stations answer to a case: the last two lines are the protect and the receive.
fn rehearsed<'a>(
    heap: Global,
    case: Case,
    cleartext: &'a [u8],
    message: &'a [u8],
) -> anyhow::Result<Vec<Answer>> {
    let mut log = beginning(heap, case.reading, case.association)?;
    for _ in 0..case.prop {
        log.push(protects(case.reading, INVOKE, &[]))?;
    }
    log.push(protects(case.reading, case.component, cleartext))?;
    log.push(receives(case.reading, message))?;
    answers(heap, 1, log.as_slice())
}

// Whether A built the message.
fn built_alike(answer: Option<Answer>, message: &[u8]) -> bool {
    match answer {
        Some(
            Answer::Sent {
                mode: _,
                message: built,
            },
        ) => built.as_slice() == message,
        _ => false,
    }
}

// Whether B read the cleartext.
fn read_alike(answer: Option<Answer>, cleartext: &[u8]) -> bool {
    match answer {
        Some(
            Answer::Handed {
                component: _,
                mode: _,
                cleartext: read,
                report: _,
            },
        ) => read.as_slice() == cleartext,
        _ => false,
    }
}

fn said(alike: bool) -> &'static str {
    if alike { "alike" } else { "OTHERWISE" }
}

// Prints whether a case is built and read as the outside AES did.
fn print_case(rt: &HostRuntime, number: u64, line: Line<'_>) -> anyhow::Result<()> {
    let heap = rt.alloc();
    let Ok(case) = case_of(line) else {
        return Err(anyhow!("case {number} cannot be read"));
    };
    let cleartext = octets_at(heap, line, 7)?;
    let message = octets_at(heap, line, 8)?;
    let mut answers = rehearsed(heap, case, cleartext.as_slice(), message.as_slice())?;
    let read = said(read_alike(answers.pop(), cleartext.as_slice()));
    let built = said(built_alike(answers.pop(), message.as_slice()));
    let (kind, code) = (case.component.kind, case.component.code);
    let count = cleartext.len();
    println!(rt;
        "case {number}: kind {kind} code {code}, octets {count}: built {built}, read {read}"
    )?;
    Ok(())
}

// Prints a line for each case of a file.
pub fn print_cases(rt: &HostRuntime, file: &str) -> anyhow::Result<()> {
    let text = fs::read_to_string(rt, file)?;
    let cases = text
        .lines()
        .filter(|line| !line.is_empty() && !line.starts_with('#'));
    for (number, line) in (1u64..).zip(cases) {
        print_case(rt, number, Line::of(line.as_bytes()))?;
    }
    Ok(())
}
