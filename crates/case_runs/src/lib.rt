// Runs cases of the public calls, one to a line: the number of words lent for the output, the three numbers that must be answered, the words of a
// module as kind:payload, behind '=>' the words that must be written and, behind '#', what the case shows. Every lent word is compared: one that
// must not be written has to keep the mark that it had. A line that begins with '#' is a heading.
#![tactic(auto)]

ghost use Rattle.std.specs.Prelude.{◌≤◌, IfOk};

use case_lines::{Outcome, Tally};
use grammar::Refusal;
use rewriter::{Numbers, Written};
use std::io;

// What both calls answer.
type Answer = Result<Written, Refusal>;

// A word that no module has.
const MARK: u32 = u32::MAX;

// How many words the programs lend: for a module; for what is expected, and for the output.
const MAX_WORDS: usize = 8192;

const MAX_OUTPUT: usize = 12288;

// Whether the lent words are right by a test, and those behind so many keep the mark.
fn has_written<F>(out: &[u32], count: usize, is_right: F) -> bool
where
    F: Fn(&[u32]) -> bool,
    requires { F.IsAlwaysCallable is_right }
{
    match out.split_at_checked(count) {
        Some((written, rest)) => is_right(written) && rest.iter().all(|w| *w == MARK),
        None => false,
    }
}

// Whether the lent words begin with the expected ones and keep the mark behind them.
fn has_words(expected: &[u32], out: &[u32]) -> bool {
    has_written(out, expected.len(), |written| written == expected)
}

// Whether the lent words are the expected ones, all different, in any order, and the mark behind them.
fn has_words_in_any_order(expected: &[u32], out: &[u32]) -> bool {
    has_written(
        out,
        expected.len(),
        |_| expected.iter().all(|w| out.contains(w)),
    )
}

// Words for a case, lent: for its module, for what is expected, and for the output that the case lends to the call. Of a longer module, and of more
// expected words, those in front are read; a case that lends more is wrong.
#[derive(Drop)]
pub struct Buffers<'a> {
    pub module: &'a mut [u32],
    pub expected: &'a mut [u32],
    pub output: &'a mut [u32],
}

impl Buffers<'_> {
    // A case of a call: its numbers, the module's words up to '=', the expected ones behind it.
    fn run_case<F, G>(&mut self, case: &[u8], call: F, has_expected: G) -> Outcome
    where
        F: Fn(&[u32], &mut [u32]) -> Answer,
        G: Fn(&[u32], &[u32]) -> bool,
        requires call { F.IsAlwaysCallable call }
        requires has_expected { G.IsAlwaysCallable has_expected }
    {
        let mut bytes = case.iter();
        let room = case_lines::read_number(&mut bytes) as usize;
        let numbers = Numbers {
            code: case_lines::read_number(&mut bytes),
            written: case_lines::read_number(&mut bytes) as usize,
            fresh: case_lines::read_number(&mut bytes),
        };
        let (asked, expected) = case_lines::split_before(case, b'=');
        let words = &mut *self.module;
        let count = case_lines::read_words(words, asked);
        let module = &words[..count];
        let words = &mut *self.expected;
        let count = case_lines::read_words(words, expected);
        let expected = &words[..count];
        let output = &mut *self.output;
        let right = match output.get_mut(..room) {
            Some(out) if numbers.written == expected.len() => {
                out.fill(MARK);
                Numbers::from(call(module, out)) == numbers && has_expected(expected, out)
            }
            _ => false,
        };
        Outcome {
            right,
            answer: None,
        }
    }

    // Runs the cases of the rewriter that standard input lists.
    pub fn run_rewriter(mut self, rt: &(impl Input + Print + AllocGlobal)) -> io::Result<Tally>
        ensures { IfOk result (λ t. t.wrong ≤ t.cases) }
    {
        case_lines::run(rt, |case| self.run_case(case, rewriter::rewrite, has_words))
    }

    // Runs the cases of the symbol report that standard input lists.
    pub fn run_report(mut self, rt: &(impl Input + Print + AllocGlobal)) -> io::Result<Tally>
        ensures { IfOk result (λ t. t.wrong ≤ t.cases) }
    {
        case_lines::run(
            rt,
            |case| self.run_case(case, symbol_report::report, has_words_in_any_order),
        )
    }
}

// Runs the cases of the rewriter that standard input lists, in as many words as a program lends.
pub fn run_rewriter(rt: &(impl Input + Print + AllocGlobal)) -> io::Result<Tally>
    ensures { IfOk result (λ t. t.wrong ≤ t.cases) }
{
    let buffers = Buffers {
        module: &mut [0; MAX_WORDS],
        expected: &mut [0; MAX_OUTPUT],
        output: &mut [0; MAX_OUTPUT],
    };
    buffers.run_rewriter(rt)
}

// Runs the cases of the symbol report that standard input lists, in as many words as a program lends.
pub fn run_report(rt: &(impl Input + Print + AllocGlobal)) -> io::Result<Tally>
    ensures { IfOk result (λ t. t.wrong ≤ t.cases) }
{
    let buffers = Buffers {
        module: &mut [0; MAX_WORDS],
        expected: &mut [0; MAX_OUTPUT],
        output: &mut [0; MAX_OUTPUT],
    };
    buffers.run_report(rt)
}

#[cfg(test)]
mod tests;
