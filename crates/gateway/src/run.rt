// A run: what each statement of the files does, and what stops it.
use crate::answers::{Refused, Reply, Shown};
use crate::site::{Site, rooms};
use calls::Call;
use complaints::Complaint;
use desk::answers::Answers;
use desk::{Declared, Desk, DeskFault};
use lines::LineCutter;
use memory::{Memory, Room};
use rules::refusal::Refusal;
use rules::settings::Settings;
use statements::both::Both;
use statements::declaration::{Declaration, Name};
use statements::statement::{Statement, read_statement};
use std::alloc::{AllocError, Global};
use std::fmt::Display;
use std::io::Read;
use std::{env, fmt, fs, io};
use words::cut::word_at;
use words::fault::{Expected, Fault};
use words::numbers::{answer_number, octets};

/// How standard input is called in a message.
const STANDARD_INPUT: &str = "standard input";

/// The program cannot go on; the reason stands on standard error.
#[derive(Drop)]
pub struct Stopped;

// Where a line stands, without its octets: a file that cannot be read on has none to name.
/// A line of a file, counted from 1.
#[derive(Clone, Copy)]
struct At<'f> {
    file: &'f str,
    number: u64,
}

impl<'f> At<'f> {
    /// The line that is being gathered.
    fn line_of(file: &'f str, lines: &LineCutter) -> At<'f> {
        At {
            file,
            number: lines.number(),
        }
    }
}

impl fmt::Display for At<'_> {
    fn fmt<W: fmt::Write>(&self, f: &mut fmt::Formatter<W>) -> fmt::Result {
        let At { file, number } = *self;
        write!(f, "{file}:{number}")
    }
}

/// Says what the program cannot use, and why.
fn stop<T>(
    rt: &HostRuntime,
    what: &str,
    trouble: &str,
    reason: impl Display + Drop,
) -> Result<T, Stopped> {
    let _ = eprintln!(rt; "{what}: {trouble}: {reason}");
    Err(Stopped)
}

/// Says which line stops the program.
fn stop_at<T>(rt: &HostRuntime, at: At<'_>, reason: impl Display + Drop) -> Result<T, Stopped> {
    let _ = eprintln!(rt; "{at}: {reason}");
    Err(Stopped)
}

/// Stops where an answer cannot be written.
fn written(rt: &HostRuntime, outcome: io::Result<()>) -> Result<(), Stopped> {
    match outcome {
        Ok(()) => Ok(()),
        Err(error) => stop(rt, "standard output", "cannot be written", error),
    }
}

/// Answers for a station that cannot be made, with the cause in words.
fn refuse_station(rt: &HostRuntime, name: Name, refusal: Refusal) -> Result<(), Stopped> {
    let refused = Refused { refusal };
    written(rt, println!(rt; "0 {name} station {refused}"))?;
    let _ = eprintln!(rt; "station {name}: {refusal}");
    Err(Stopped)
}

/// Answers for a station that is declared and was never called: whether it can be made.
fn answer(rt: &HostRuntime, name: Name, declared: Option<Declared>) -> Result<(), Stopped> {
    let Some(declared) = declared else {
        return Ok(());
    };
    match Settings::new(declared.draft) {
        Ok(_) => written(rt, println!(rt; "0 {name} station ok")),
        Err(refusal) => refuse_station(rt, name, refusal),
    }
}

// The runtime is no field of a run: tried, and the calls of a run that holds it are not covered by the proof.
/// What the statements read so far have left.
#[derive(Drop)]
pub struct Run<'a> {
    desk: Desk,
    // not in a `Both`: the proof does not cover dropping a value of a type parameter that holds a `&mut`
    a: Site<'a>,
    b: Site<'a>,
    answers: Answers,
}

/// How long the output of a call is.
fn room_of(call: Call) -> usize {
    match call {
        Call::Protect { room, .. } | Call::Receive { room, .. } => room as usize,
        _ => 0,
    }
}

impl<'a> Run<'a> {
    /// Nothing is declared, and no station is made.
    fn new(heap: Global, rooms: Both<Room<'a>>) -> Run<'a> {
        let Both { a, b } = rooms;
        Run {
            desk: Desk::new(),
            a: Site::new(a),
            b: Site::new(b),
            answers: Answers::new(heap),
        }
    }

    /// That station.
    fn site(&mut self, name: Name) -> &mut Site<'a> {
        match name {
            Name::A => &mut self.a,
            Name::B => &mut self.b,
        }
    }

    /// Enters a declaration; a station that was called takes none.
    fn declare(
        &mut self,
        rt: &HostRuntime,
        at: At<'_>,
        declaration: Declaration,
    ) -> Result<(), Stopped> {
        if self.site(declaration.name()).is_made() {
            return stop_at(
                rt,
                at,
                "found a declaration of a station that was called above, expected it before its first call",
            );
        }
        match self.desk.enter(rt.alloc(), declaration) {
            Ok(()) => Ok(()),
            Err(fault) => stop_at(rt, at, fault),
        }
    }

    /// Makes the station of a call, if it is its first.
    fn ensure_made(&mut self, rt: &HostRuntime, at: At<'_>, name: Name) -> Result<(), Stopped> {
        if self.site(name).is_made() {
            return Ok(());
        }
        let Some(declared) = self.desk.take(name) else {
            return stop_at(rt, at, DeskFault::NotDeclared(name));
        };
        match self.site(name).make(declared) {
            Ok(()) => Ok(()),
            Err(refusal) => refuse_station(rt, name, refusal),
        }
    }

    /// The octets that an answer gave, once more.
    fn octets_again(&self, heap: Global, answer: u64) -> Result<Option<Vec<u8>>, AllocError> {
        let octets = self.answers.octets(answer);
        Ok(
            octets
                .map(|octets| Vec::from_slice(heap, octets))
                .transpose()?,
        )
    }

    /// The octets that a call takes: as they are written, or those of an answer above.
    fn octets_of(
        &self,
        rt: &HostRuntime,
        at: At<'_>,
        line: &[u8],
        call: Call,
    ) -> Result<Vec<u8>, Stopped> {
        let Some(place) = call.octets_place() else {
            return Ok(Vec::new(rt.alloc()));
        };
        let word = word_at(line, place);
        let (octets, expected) = match answer_number(word) {
            Some(answer) => (self.octets_again(rt.alloc(), answer), Expected::Answer),
            None => (octets(rt.alloc(), word), Expected::Octets),
        };
        match octets {
            Ok(Some(octets)) => Ok(octets),
            Ok(None) => {
                let fault = Fault { place, expected };
                stop_at(rt, at, Complaint { line, fault })
            }
            Err(_) => stop_at(rt, at, DeskFault::NoMemory),
        }
    }

    /// Makes a call, prints its answer, and keeps the octets that it gave.
    fn make_call(
        &mut self,
        rt: &HostRuntime,
        at: At<'_>,
        name: Name,
        call: Call,
        octets: Vec<u8>,
    ) -> Result<(), Stopped> {
        let Ok(mut output) = vec![in rt.alloc(); 0u8; room_of(call)] else {
            return stop_at(rt, at, DeskFault::NoMemory);
        };
        let Ok(()) = self.answers.open() else {
            return stop_at(rt, at, DeskFault::NoMemory);
        };
        let site = self.site(name);
        let Some(reply) = site.call(call, octets.as_slice(), output.as_mut_slice()) else {
            return stop_at(rt, at, DeskFault::NotDeclared(name));
        };
        // plain writes nothing: what it hands on is what it was given
        let given = if let Call::Plain { .. } = call {
            octets
        } else {
            output
        };
        self.answer_call(rt, at, name, call.verb(), reply, given)
    }

    /// Prints the answer to a call, and keeps the octets that it gave.
    fn answer_call(
        &mut self,
        rt: &HostRuntime,
        at: At<'_>,
        name: Name,
        verb: &str,
        reply: Reply,
        mut octets: Vec<u8>,
    ) -> Result<(), Stopped> {
        let count = self.answers.count();
        octets.truncate(reply.length().unwrap_or(0));
        let shown = Shown {
            reply,
            octets: octets.as_slice(),
        };
        written(rt, println!(rt; "{count} {name} {verb} {shown}"))?;
        if let Err(refusal) = reply.outcome {
            let _ = eprintln!(rt; "{at}: refused: {refusal}");
        }
        if reply.length().is_some() {
            octets.shrink_to_fit();
            self.answers.give(octets);
        }
        Ok(())
    }

    /// Does what a call says, once its octets are read.
    fn call_line(
        &mut self,
        rt: &HostRuntime,
        at: At<'_>,
        line: &[u8],
        name: Name,
        call: Call,
    ) -> Result<(), Stopped> {
        let octets = self.octets_of(rt, at, line, call)?;
        self.ensure_made(rt, at, name)?;
        self.make_call(rt, at, name, call, octets)
    }

    /// Does what a line says.
    fn enter_line(&mut self, rt: &HostRuntime, at: At<'_>, line: &[u8]) -> Result<(), Stopped> {
        match read_statement(line) {
            Ok(None) => Ok(()),
            Ok(Some(Statement::Declares(declaration))) => self.declare(rt, at, declaration),
            Ok(Some(Statement::Calls { name, call })) => self.call_line(rt, at, line, name, call),
            Err(fault) => stop_at(rt, at, Complaint { line, fault }),
        }
    }

    /// Takes an octet of a file, and does what its line says where that is complete.
    fn take_octet(
        &mut self,
        rt: &HostRuntime,
        file: &str,
        lines: &mut LineCutter,
        octet: u8,
    ) -> Result<(), Stopped> {
        match lines.put(octet) {
            Ok(false) => Ok(()),
            Ok(true) => {
                self.enter_line(rt, At::line_of(file, lines), lines.line())?;
                lines.clear();
                Ok(())
            }
            Err(fault) => stop_at(rt, At::line_of(file, lines), fault),
        }
    }

    /// Does what is left where a file ends: its last line needs no LF.
    fn end_file(
        &mut self,
        rt: &HostRuntime,
        file: &str,
        lines: &LineCutter,
    ) -> Result<(), Stopped> {
        let at = At::line_of(file, lines);
        match lines.last_line() {
            Ok(None) => Ok(()),
            Ok(Some(line)) => self.enter_line(rt, at, line),
            Err(fault) => stop_at(rt, at, fault),
        }
    }

    /// Reads a file to its end, and does what each line says as soon as it is complete.
    fn read_source(
        &mut self,
        rt: &HostRuntime,
        file: &str,
        source: &mut impl Read,
    ) -> Result<(), Stopped> {
        let mut lines = LineCutter::new(rt.alloc());
        let mut chunk = [0u8; 4096];
        // To the end of the source, which no number bounds: a `for` that is longer than any input.
        for _ in 0..u64::MAX {
            let count = match source.read(&mut chunk) {
                Ok(count) => count,
                Err(error) => return stop(rt, file, "cannot be read", error),
            };
            if count == 0 {
                break;
            }
            for octet in chunk.iter().take(count) {
                self.take_octet(rt, file, &mut lines, *octet)?;
            }
        }
        self.end_file(rt, file, &lines)
    }

    /// Reads a file by its name; `-` is standard input.
    fn read_named(&mut self, rt: &HostRuntime, file: &str) -> Result<(), Stopped> {
        if file == "-" {
            return self.read_source(rt, STANDARD_INPUT, &mut rt.stdin());
        }
        match fs::open(rt, file) {
            Ok(mut source) => self.read_source(rt, file, &mut source),
            Err(error) => stop(rt, file, "cannot be opened", error),
        }
    }

    /// Reads the files that are named, in order; standard input, where none is.
    fn read_all(&mut self, rt: &HostRuntime) -> Result<(), Stopped> {
        let args = match env::args(rt) {
            Ok(args) => args,
            Err(error) => return stop(
                rt,
                "gateway",
                "the names of the files cannot be read",
                error,
            ),
        };
        let mut files = args.skip(1);
        let Some(first) = files.next() else {
            return self.read_named(rt, "-");
        };
        self.read_named(rt, first.as_str())?;
        for file in files {
            self.read_named(rt, file.as_str())?;
        }
        Ok(())
    }

    /// Reads all, and then answers for the stations that no call has made.
    fn serve(&mut self, rt: &HostRuntime) -> Result<(), Stopped> {
        self.read_all(rt)?;
        for name in [Name::A, Name::B] {
            let declared = self.desk.take(name);
            answer(rt, name, declared)?;
        }
        Ok(())
    }
}

/// Serves two stations in the memory that they are lent.
pub fn serve(rt: &HostRuntime, memory: &mut Both<Memory>) -> Result<(), Stopped> {
    let mut run = Run::new(rt.alloc(), rooms(memory));
    run.serve(rt)
}
