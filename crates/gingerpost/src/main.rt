// The program: a module's words, one to a line, rewritten or reported. Reads standard input or the file that it is given, writes the answer to
// standard output and what is wrong to standard error. The lines are read by `line_reader` and made by `line_writer`.
#![tactic(auto)]

ghost use Rattle.std.specs.Prelude.{◌≡◌, ◌≤◌, length, IfOk};
ghost use Rattle.line_reader.specs.Text.{Ready};
ghost use Rattle.gingerpost.specs.Arguments.{Means};

use line_reader::{Fault, Reading, Stage};
use rewriter::Numbers;
use std::env::FillError;
use std::io::{ErrorKind, Read, Write};
use std::rt::{Env, Files};
use std::{fs, io};

// Memory is fixed: arrays of the greatest length, with how much of them is used.

// One word more than a module may have: a longer text is answered as its first words are.
const MODULE_WORDS: usize = 4097;
// Three times the longest module's.
const ANSWER_WORDS: usize = 12288;
// The line of an answer's numbers, and 12 bytes for each of its words.
const ANSWER_BYTES: usize = 147519;
// A longer argument names no file.
const ARGUMENT_BYTES: usize = 4096;
// The system's number for a name that is too long.
const NAME_TOO_LONG: i32 = 36;

const HELP: &str = "gingerpost [rewrite|report] [FILE]

Reads the words of a module, one to a line as kind:payload in decimal, from FILE or from standard input.
Prints the three numbers of the answer on one line, then its words, one to a line.

  rewrite  the module with its decorators turned into calls (this is the default)
  report   a word for each symbol that the rewriting takes

Spaces, tabs and a carriage return at the end of a line are passed over, and so is a line with nothing else.
The first line that is not a word is told on standard error, with its number; then nothing is printed.
The exit status is 0 in any case.
";

#[derive(Clone, Copy, PartialEq, Eq, Debug)]
enum Job {
    Rewrite,
    Report,
}

// What an argument says by itself.
#[derive(Clone, Copy, PartialEq, Eq, Debug)]
enum Argument {
    Help,
    Job(Job),
    // It begins with '-', and is none of these.
    Unknown,
    Name,
}

// Why nothing is answered.
#[derive(Clone, Copy)]
enum Failure<'a> {
    TooManyArguments,
    // An argument, and what is wrong with it.
    Argument(&'a [u8], &'static str),
    // What could not be opened, read or written, and why.
    Io(&'a [u8], io::Error),
    // The number of a bad line, and what is wrong with it.
    Line(u64, Fault),
}

impl Job {
    // Writes the words of the answer.
    fn answer(self, ws: &[u32], out: &mut [u32]) -> Numbers
        ensures { result.written ≤ length out.new }
    {
        match self {
            Job::Rewrite => Numbers::from(rewriter::rewrite(ws, out)),
            Job::Report => Numbers::from(symbol_report::report(ws, out)),
        }
    }
}

fn meaning(a: &[u8]) -> Argument
    ensures { Means a.now result }
{
    // Comparisons, not a match on the bytes: its last arms know of the bytes' number alone.
    if a == b"--help".as_slice() {
        Argument::Help
    } else if a == b"rewrite".as_slice() {
        Argument::Job(Job::Rewrite)
    } else if a == b"report".as_slice() {
        Argument::Job(Job::Report)
    } else if a.starts_with(b"-") {
        Argument::Unknown
    } else {
        Argument::Name
    }
}

// Writes to standard error or output. What is not taken is told nowhere.
fn say(to: &impl Print, text: &[u8]) {
    let _ = to.write_all(text);
}

// Says why a call failed, in the system's words: an error prints them in front of its number. The text is on the stack: it may be memory that failed.
fn say_reason(err: &impl Print, e: io::Error) {
    let mut text = [0u8; 256];
    let mut rest: &mut [u8] = &mut text;
    let _ = write!(rest, "{e}");
    let printed = str::from_utf8(&text).unwrap_or("");
    let words = match printed.split_once(" (os error ") {
        Some((words, _)) => words,
        None => printed.trim_end_matches('\0'),
    };
    say(err, words.as_bytes());
}

// Says what went wrong. A name is written byte for byte: it may be no UTF-8 text.
fn say_failure(err: &impl Print, failure: Failure<'_>) {
    say(err, b"gingerpost: ");
    match failure {
        Failure::TooManyArguments => say(err, b"too many arguments"),
        Failure::Argument(argument, wrong) => {
            say(err, argument);
            say(err, wrong.as_bytes());
        }
        Failure::Io(name, e) => {
            say(err, name);
            say(err, b": ");
            say_reason(err, e);
        }
        Failure::Line(line, fault) => {
            let _ = print!(err; "line {line}: {fault}");
        }
    }
    say(err, b"\n");
}

// The whole text of a file, with the line feed that its last line may lack. A proved loop has to end, and nothing says that a file does: the turns are
// counted up to a number that no run reaches.
fn read_text(source: &mut impl Read, ws: &mut [u32]) -> io::Result<Reading>
    ensures { IfOk result (λ r. Ready ws.new r) }
{
    let mut reading = Reading::start();
    let mut buf = [0u8; 65536];
    for _ in 0..u64::MAX {
        match source.read(&mut buf)? {
            0 => {
                reading.read(b"\n", ws);
                return Ok(reading);
            }
            n => reading.read(&buf[..n], ws),
        }
    }
    Err(io::Error::other("it does not end"))
}

// Writes an answer's numbers and its words.
fn print(out: &impl Print, numbers: Numbers, words: &[u32]) -> io::Result<()>
    requires { length words.now ≤ 12288 }
{
    let mut text = [0u8; ANSWER_BYTES];
    let n = line_writer::put_answer(
        &mut text,
        u64::from(numbers.code),
        numbers.written as u64,
        u64::from(numbers.fresh),
        words,
    );
    out.write_all(&text[..n])
}

fn answer(out: &impl Print, job: Job, ws: &[u32]) -> io::Result<()> {
    let mut words = [0u32; ANSWER_WORDS];
    let numbers = job.answer(ws, &mut words);
    print(out, numbers, &words[..numbers.written])
}

fn run<'a>(
    out: &impl Print,
    job: Job,
    source: &mut impl Read,
    name: &'a [u8],
) -> Result<(), Failure<'a>> {
    let mut ws = [0u32; MODULE_WORDS];
    let reading = read_text(source, &mut ws).map_err(|e| Failure::Io(name, e))?;
    if let Stage::Bad(fault) = reading.stage {
        return Err(Failure::Line(reading.line, fault));
    }
    answer(out, job, &ws[..reading.stored]).map_err(|e| Failure::Io(b"standard output", e))
}

fn run_input(rt: &(impl Input + Print), job: Job) -> Result<(), Failure<'static>> {
    run(rt, job, &mut rt.reader(), b"standard input")
}

// A file's name is UTF-8 text.
fn open<R: Files>(rt: &R, path: &[u8]) -> io::Result<R::File> {
    match str::from_utf8(path) {
        Ok(name) => fs::open(rt, name),
        Err(_) => Err(io::Error::new(ErrorKind::InvalidFilename, "Not UTF-8 text")),
    }
}

fn run_file<'a>(rt: &(impl Files + Print), job: Job, path: &'a [u8]) -> Result<(), Failure<'a>> {
    let mut file = open(rt, path).map_err(|e| Failure::Io(path, e))?;
    run(rt, job, &mut file, path)
}

fn help(out: &impl Print) -> Result<(), Failure<'static>> {
    say(out, HELP.as_bytes());
    Ok(())
}

fn unknown(a: &[u8]) -> Failure<'_> {
    Failure::Argument(a, ": unknown argument")
}

// One argument: a job, or the file of the default one.
fn run_one<'a>(rt: &(impl Files + Input + Print), a: &'a [u8]) -> Result<(), Failure<'a>> {
    match meaning(a) {
        Argument::Help => help(rt),
        Argument::Job(job) => run_input(rt, job),
        Argument::Unknown => Err(unknown(a)),
        Argument::Name => run_file(rt, Job::Rewrite, a),
    }
}

// A job and its file. The second argument is a name, also where it reads like a job.
fn run_two<'a>(
    rt: &(impl Files + Print),
    job: &'a [u8],
    path: &'a [u8],
) -> Result<(), Failure<'a>> {
    match (meaning(job), meaning(path)) {
        (_, Argument::Help) => help(rt),
        (_, Argument::Unknown) => Err(unknown(path)),
        (Argument::Help, _) => help(rt),
        (Argument::Job(job), _) => run_file(rt, job, path),
        (Argument::Unknown, _) => Err(unknown(job)),
        (Argument::Name, _) => Err(Failure::Argument(job, ": neither rewrite nor report")),
    }
}

// Whether the program was started with an argument of this number.
fn is_given(rt: &impl Env, i: usize) -> bool {
    !matches!(rt.arg(i, &mut []), Err(FillError::NotPresent))
}

// The bytes of an argument, not `env::args`: that gives no argument where one isn't UTF-8 text.
fn read_argument<'a>(
    rt: &impl Env,
    i: usize,
    buf: &'a mut [u8],
    name: &'static [u8],
) -> Result<&'a [u8], Failure<'static>> {
    match rt.arg(i, buf) {
        Ok(n) => Ok(&buf[..n]),
        Err(_) => Err(Failure::Io(name, io::Error::from_raw_os_error(NAME_TOO_LONG))),
    }
}

fn run_arguments<'a>(
    rt: &(impl Env + Files + Input + Print),
    first: &'a mut [u8],
    second: &'a mut [u8],
) -> Result<(), Failure<'a>> {
    if is_given(rt, 3) {
        return Err(Failure::TooManyArguments);
    }
    if !is_given(rt, 1) {
        return run_input(rt, Job::Rewrite);
    }
    let first = read_argument(rt, 1, first, b"the first argument")?;
    if !is_given(rt, 2) {
        return run_one(rt, first);
    }
    let second = read_argument(rt, 2, second, b"the second argument")?;
    run_two(rt, first, second)
}

fn main(rt: HostRuntime) {
    let mut first = [0u8; ARGUMENT_BYTES];
    let mut second = [0u8; ARGUMENT_BYTES];
    if let Err(failure) = run_arguments(&rt, &mut first, &mut second) {
        say_failure(&rt.stderr(), failure);
    }
}
