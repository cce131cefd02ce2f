//! Runs inputs of the programs `replay` and `trace`, each a file below `data/`, and says whether each prints and ends as it should.
//!
//! A line of standard input names a case: `NAME`, `NAME STATUS` or `NAME STATUS WORD..`. The file NAME.in is run over ends in
//! memory, with the words given or else the word `run`. It must end with the status given or else with 0, and must print what stands
//! in NAME.out. The line `faults NAME` runs a case again and again: each read of its input in turn fails, and each write of its
//! output. Such a run must end with the status of that fault, and print no more than a prefix of the output. The line `fronts NAME` runs
//! each front of NAME.in: it must end with the status that stands at the place of its length in NAME.fronts, a digit each. The line
//! `trace NAME` runs the program `trace` over NAME.in with the word `text`: it must print what stands in NAME.trace. The line `svg NAME`
//! runs it with the word `svg`: no two labels of the picture may overlap. The line `stops NAME` runs it with the word `text` again
//! and again. Each line of NAME.stops is `FAULT: LINE; LINE ..`: this fault of a disk takes the place of the word `FAULT` of NAME.in, and the lines
//! of the trace that name no message must be these: what `replay` prints, where disks stopped, what happened, and what bricks keep in the end. Where
//! `fronts` and `stops` find nothing wrong, they say in how many runs.
//!
//! The line `often WRITES` writes a stripe so often over bricks with little room, by `replay`, each write alone, and has each brick drop what is
//! older: all must be done.
//!
//! The line `drawn SEEDS` makes the schedules of so many seeds, spells their lines, and runs that text: it must have the counts and happenings that a made run
//! sums up, and an audit must find what it prints sound.
#![tactic(auto)]

mod drawn;
mod labels;
mod stops;
mod writes;

use fab_io::{MemSink, MemSource};
use replay::replay;
use std::alloc::{AllocError, Global};
use std::rt::Files;
use std::str::SplitWhitespace;
use std::{fmt, fs, io};
use trace::trace;

/// A source that fails gives its bytes in pieces of this length, so that a short input takes several reads.
const PIECE: usize = 64;

/// A sink takes so many bytes of the piece whose write fails.
const PART: usize = 3;

/// More reads, or writes, than a case with faults makes.
const MOST_CALLS: u32 = 10_000;

/// The call that fails, by its number from 1.
#[derive(Clone, Copy)]
enum Fault {
    Read(u64),
    Write(u64),
}

impl Fault {
    /// The status of a run that meets the fault.
    fn status(self) -> u8 {
        match self {
            Fault::Read(_) => 5,
            Fault::Write(_) => 6,
        }
    }

    /// The fault one call later.
    fn next(self) -> Fault {
        match self {
            Fault::Read(call) => Fault::Read(call.saturating_add(1)),
            Fault::Write(call) => Fault::Write(call.saturating_add(1)),
        }
    }
}

/// How many lines each schedule has that is drawn.
const DRAWN_LINES: u64 = 2_000;

/// What is done with an input.
#[derive(Clone, Copy, PartialEq, Eq)]
enum Kind {
    /// It is run by `replay`.
    Run,
    /// The same, and then again with each read and each write failing in turn.
    Faults,
    /// Each of its fronts is run by `replay`.
    Fronts,
    /// It is run by `trace`.
    Trace,
    /// It is drawn by `trace`.
    Svg,
    /// It is run by `trace` with each of some faults of a disk.
    Stops,
    /// It is a number of writes, which `replay` runs.
    Often,
    /// It is a number of seeds, whose schedules are made and run.
    Drawn,
}

impl Kind {
    /// The kind that a line's first word names. One that names none is the name of a case that is run.
    fn of(word: &str) -> Kind {
        match word {
            "faults" => Kind::Faults,
            "fronts" => Kind::Fronts,
            "trace" => Kind::Trace,
            "svg" => Kind::Svg,
            "stops" => Kind::Stops,
            "often" => Kind::Often,
            "drawn" => Kind::Drawn,
            _ => Kind::Run,
        }
    }

    /// The last part of the name of the file that says what is wanted, where there is one.
    fn suffix(self) -> Option<&'static str> {
        match self {
            Kind::Run | Kind::Faults => Some("out"),
            Kind::Fronts => Some("fronts"),
            Kind::Trace => Some("trace"),
            Kind::Stops => Some("stops"),
            Kind::Svg | Kind::Often | Kind::Drawn => None,
        }
    }

    /// The word of the program where the line gives none.
    fn word(self) -> &'static str {
        match self {
            Kind::Run | Kind::Faults | Kind::Fronts | Kind::Often | Kind::Drawn => "run",
            Kind::Trace | Kind::Stops => "text",
            Kind::Svg => "svg",
        }
    }

    /// What is said behind the name of a case.
    fn said(self) -> &'static str {
        match self {
            Kind::Run => "",
            Kind::Faults => " with faults",
            Kind::Fronts => " cut short",
            Kind::Trace => " traced",
            Kind::Svg => " drawn",
            Kind::Stops => " stopped",
            Kind::Often => " writes over little room",
            Kind::Drawn => " schedules drawn",
        }
    }
}

/// How a run ended: its status and all that it printed.
#[derive(Drop)]
struct Ending {
    status: u8,
    sink: MemSink,
}

/// What is run, and what is wanted of it.
#[derive(Drop)]
struct Case<'a> {
    name: &'a str,
    kind: Kind,
    words: Vec<String>,
    input: Vec<u8>,
    status: u8,
    output: Vec<u8>,
}

/// What is found of a case: nothing wrong, nothing wrong in so many runs, another status, another output, labels that overlap, another status
/// after so many bytes of the input, or another end where a fault comes.
#[derive(Drop)]
enum Finding {
    Fine,
    AllFine(usize),
    Status(u8),
    Output,
    Labels,
    Front(usize, u8),
    After(Fault),
}

impl fmt::Display for Finding {
    fn fmt<W: fmt::Write>(&self, f: &mut fmt::Formatter<W>) -> fmt::Result {
        match self {
            Finding::Fine => write!(f, "ok"),
            Finding::AllFine(runs) => write!(f, "ok in {runs} runs"),
            Finding::Status(found) => write!(f, "ends with {found}"),
            Finding::Output => write!(f, "prints something else"),
            Finding::Labels => write!(f, "has labels that overlap"),
            Finding::Front(length, found) => write!(f, "ends with {found} after {length} bytes"),
            Finding::After(Fault::Read(call)) => write!(f, "ends badly where read {call} fails"),
            Finding::After(Fault::Write(call)) => write!(f, "ends badly where write {call} fails"),
        }
    }
}

/// The words of a program: those that are left of a line, or else one.
fn words_of(
    alloc: Global,
    tokens: &mut SplitWhitespace<'_>,
    word: &str,
) -> Result<Vec<String>, AllocError> {
    let mut words = Vec::new(alloc);
    for token in tokens {
        words.push(String::from_str(alloc, token)?)?;
    }
    if words.is_empty() {
        words.push(String::from_str(alloc, word)?)?;
    }
    Ok(words)
}

/// What stands in the file of a case, by the last part of the file's name. Nothing where there is none.
fn file(rt: &(impl Files + AllocGlobal), name: &str, suffix: Option<&str>) -> io::Result<Vec<u8>> {
    match suffix {
        Some(suffix) => fs::read(rt, format!(in rt.alloc(); "{name}.{suffix}")?),
        None => Ok(Vec::new(rt.alloc())),
    }
}

impl<'a> Case<'a> {
    /// What a line says, with the files that it names.
    fn read(rt: &(impl Files + AllocGlobal), line: &'a str) -> io::Result<Case<'a>> {
        let mut tokens = line.split_whitespace();
        let first = tokens.next().unwrap_or("");
        let kind = Kind::of(first);
        let name = match kind {
            Kind::Run => first,
            _ => tokens.next().unwrap_or(""),
        };
        let status = tokens.next().unwrap_or("0").parse().unwrap_or(u8::MAX);
        let words = words_of(rt.alloc(), &mut tokens, kind.word())?;
        let input = match kind {
            Kind::Often => writes::over_little_room(rt.alloc(), name.parse().unwrap_or(0))?,
            Kind::Drawn => Vec::new(rt.alloc()),
            _ => file(rt, name, Some("in"))?,
        };
        let output = file(rt, name, kind.suffix())?;
        Ok(Case {
            name,
            kind,
            words,
            input,
            status,
            output,
        })
    }

    /// Runs the case over this input, with a fault or with none.
    fn run_over(
        &self,
        alloc: Global,
        input: Vec<u8>,
        fault: Option<Fault>,
    ) -> Result<Ending, AllocError> {
        let mut source = MemSource::new(input);
        let mut sink = MemSink::new(alloc);
        match fault {
            Some(Fault::Read(call)) => {
                source.in_pieces_of(PIECE);
                source.fail_at(vec![in alloc; call]?);
            }
            Some(Fault::Write(call)) => {
                sink.take_where_failing(PART);
                sink.fail_at(vec![in alloc; call]?);
            }
            None => (),
        }
        let words = self.words.as_slice();
        let status = if matches!(self.kind, Kind::Trace | Kind::Svg | Kind::Stops) {
            let mut errors = MemSink::new(alloc);
            trace(alloc, words, &mut source, &mut sink, &mut errors)
        } else {
            replay(alloc, words, &mut source, &mut sink)
        };
        Ok(Ending { status, sink })
    }

    /// Runs the case over its whole input.
    fn run(&self, alloc: Global, fault: Option<Fault>) -> Result<Ending, AllocError> {
        self.run_over(alloc, self.input.clone()?, fault)
    }

    /// Looks at each front of the input: at the status with which it ends.
    fn look_at_fronts(&self, alloc: Global) -> Result<Finding, AllocError> {
        let mut front = Vec::new(alloc);
        for (length, digit) in self.output.iter().enumerate() {
            let status = self.run_over(alloc, front.clone()?, None)?.status;
            if status != digit.wrapping_sub(b'0') {
                return Ok(Finding::Front(length, status));
            }
            if let Some(byte) = self.input.as_slice().get(length) {
                front.push(*byte)?;
            }
        }
        Ok(Finding::AllFine(self.output.len()))
    }

    /// Looks at what is told where a fault of a disk takes its place in the input, for each fault that the output lists.
    fn look_at_stops(&self, alloc: Global) -> Result<Finding, AllocError> {
        let input = str::from_utf8(self.input.as_slice()).unwrap_or("");
        let output = str::from_utf8(self.output.as_slice()).unwrap_or("");
        for line in output.lines() {
            let (fault, lines) = line.split_once(": ").unwrap_or((line, ""));
            let input = stops::with_fault(alloc, input, fault)?;
            let ending = self.run_over(alloc, input, None)?;
            let trace = str::from_utf8(ending.sink.taken()).unwrap_or("");
            if ending.status != self.status || !stops::tells(trace, lines) {
                return Ok(Finding::Output);
            }
        }
        Ok(Finding::AllFine(output.lines().count()))
    }

    /// Looks at whether so many writes are all done.
    fn look_at_writes(&self, alloc: Global) -> Result<Finding, AllocError> {
        let count = self.name;
        let last = format!(in alloc; "begun {count} answered {count} aborted 0 crashes 0\n")?;
        let ending = self.run(alloc, None)?;
        if ending.sink.taken().ends_with(last.as_bytes()) {
            return Ok(Finding::Fine);
        }
        Ok(Finding::Output)
    }

    /// Looks at whether the schedules of so many seeds are made as they are run.
    fn look_at_drawn(&self, alloc: Global) -> Result<Finding, AllocError> {
        let seeds: u64 = self.name.parse().unwrap_or(0);
        for seed in 0..seeds {
            match drawn::agrees(alloc, seed, DRAWN_LINES) {
                Ok(true) => (),
                Ok(false) => return Ok(Finding::Output),
                Err(_) => return Err(AllocError),
            }
        }
        Ok(Finding::Fine)
    }

    /// Looks at the labels of a picture.
    fn look_at_labels(&self, alloc: Global) -> Result<Finding, AllocError> {
        let ending = self.run(alloc, None)?;
        if ending.status != self.status {
            return Ok(Finding::Status(ending.status));
        }
        if let Ok(picture) = str::from_utf8(ending.sink.taken()) {
            if labels::are_apart(alloc, picture)? {
                return Ok(Finding::Fine);
            }
        }
        Ok(Finding::Labels)
    }

    /// Looks at a run whose ends do not fail.
    fn look_at_run(&self, alloc: Global) -> Result<Finding, AllocError> {
        let ending = self.run(alloc, None)?;
        if ending.status != self.status {
            return Ok(Finding::Status(ending.status));
        }
        if ending.sink.taken() != self.output.as_slice() {
            return Ok(Finding::Output);
        }
        Ok(Finding::Fine)
    }

    /// Looks at what comes of this fault, of the one a call later, and so on up to the first that the run doesn't reach.
    fn look_at_faults(&self, alloc: Global, first: Fault) -> Result<Finding, AllocError> {
        let mut fault = first;
        for number in 0..MOST_CALLS {
            let ending = self.run(alloc, Some(fault))?;
            let printed = ending.sink.taken();
            if ending.status != fault.status() {
                let is_past = ending.status == self.status && printed == self.output.as_slice();
                return Ok(if number > 0 && is_past {
                    Finding::Fine
                } else {
                    Finding::After(fault)
                });
            }
            if !self.output.starts_with(printed) {
                break;
            }
            fault = fault.next();
        }
        Ok(Finding::After(fault))
    }

    /// Looks at what the case asks for, and answers the first thing that is wrong.
    fn look(&self, alloc: Global) -> Result<Finding, AllocError> {
        match self.kind {
            Kind::Fronts => return self.look_at_fronts(alloc),
            Kind::Svg => return self.look_at_labels(alloc),
            Kind::Stops => return self.look_at_stops(alloc),
            Kind::Often => return self.look_at_writes(alloc),
            Kind::Drawn => return self.look_at_drawn(alloc),
            Kind::Run | Kind::Faults | Kind::Trace => (),
        }
        let mut found = self.look_at_run(alloc)?;
        for first in [Fault::Read(1), Fault::Write(1)] {
            if matches!(found, Finding::Fine) && self.kind == Kind::Faults {
                found = self.look_at_faults(alloc, first)?;
            }
        }
        Ok(found)
    }
}

fn main(rt: HostRuntime) -> io::Result<()> {
    for line in rt.lines(rt.alloc()) {
        let line = line?;
        let case = Case::read(&rt, line.as_str())?;
        let name = case.name;
        let with = case.kind.said();
        let found = case.look(rt.alloc())?;
        println!(rt; "{name}{with} {found}")?;
    }
    Ok(())
}
