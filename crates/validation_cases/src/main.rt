// Runs the cases of validation that standard input lists, one to a line: the number that must be answered, the words of a module as kind:payload and,
// behind '#', what the case shows. A line that begins with '#' is a heading.
#![tactic(auto)]

use case_lines::Outcome;
use std::io;

// The most words of a module: of a longer one those in front are read.
const MAX_WORDS: usize = 8192;

// The number of the refusal that validation answers, or 0.
fn answer(module: &[u32]) -> u32 {
    match validation::validate(module) {
        Ok(()) => 0,
        Err(refusal) => u32::from(refusal),
    }
}

// A case: the number in front, which is one digit, and the words behind.
fn run_case(words: &mut [u32], case: &[u8]) -> Outcome {
    let expected = case.first().map(|b| u32::from(b.saturating_sub(b'0')));
    let count = case_lines::read_words(words, case);
    let answer = answer(&words[..count]);
    Outcome {
        right: expected == Some(answer),
        answer: Some(answer),
    }
}

fn main(rt: HostRuntime) -> io::Result<()> {
    let mut words = [0; MAX_WORDS];
    let tally = case_lines::run(&rt, |case| run_case(&mut words, case))?;
    rt.println(tally)
}
