// Cases that standard input lists, one to a line: the words of a module as kind:payload, the numbers in front of them, what is written of each case,
// and the count of cases. (..)*N stands for its words N times over. A number without a kind is no word. What is none of these is passed over.
#![tactic(auto)]

ghost use Rattle.std.specs.Prelude.{◌+◌, ◌*◌, ◌≡◌, ◌≢◌, ◌≤◌, ◌++◌, All, Some, IfOk, codes, decimal, length, min};
ghost use Rattle.std.specs.Bool.{OnTrue, OnFalse};

use std::io::Read;
use std::slice::Iter;
use std::{fmt, io};

// The counts that are answered and written go up to here: more isn't told apart.
const MAX_CASES: u64 = 1000000;

// The cases that were run, and those that came out wrong.
#[derive(Clone, Copy, Debug)]
pub struct Tally {
    pub cases: u64,
    pub wrong: u64,
    ghost at_most: { wrong ≤ cases },
}

impl Tally {
    // One case more.
    pub fn count(&mut self, right: bool)
        ensures cases { self.new.cases ≡ min (self.old.cases + 1) 18446744073709551615 }
        ensures right { OnTrue right (self.new.wrong ≡ self.old.wrong) }
        ensures wrong { OnFalse right (self.new.wrong ≡ min (self.old.wrong + 1) 18446744073709551615) }
    {
        self.cases = self.cases.saturating_add(1);
        if !right {
            self.wrong = self.wrong.saturating_add(1);
        }
    }

    // Both counts, up to the most that is told apart.
    fn capped(self) -> Tally
        ensures cases { result.cases ≡ min self.cases 1000000 }
        ensures wrong { result.wrong ≡ min self.wrong 1000000 }
    {
        Tally {
            cases: self.cases.min(MAX_CASES),
            wrong: self.wrong.min(MAX_CASES),
        }
    }
}

impl fmt::Display for Tally {
    ghost output = { λ t. Some (decimal t.cases ++ (codes " cases, " ++ (decimal t.wrong ++ codes " wrong"))) };

    fn fmt<W: fmt::Write>(&self, f: &mut fmt::Formatter<W>) -> fmt::Result {
        let Tally { cases, wrong } = *self;
        write!(f, "{cases} cases, {wrong} wrong")
    }
}

// How a case came out, and the number answered where that is written too.
#[derive(Clone, Copy, Debug)]
pub struct Outcome {
    pub right: bool,
    pub answer: Option<u32>,
}

// The number with one more digit, up to the largest. One of up to eight digits has room for a further one without a test (speed).
fn with_digit(number: u32, digit: u8) -> u32
    ensures { result ≡ min (number * 10 + digit) 4294967295 }
{
    if number > 99999999 {
        return number.saturating_mul(10).saturating_add(u32::from(digit));
    }
    number * 10 + u32::from(digit)
}

// The same in an item, but from nine digits on a number stays as it is: no word has as many, and repeated so often a group fills 100,000,000 words. One
// step for all numbers takes longer at each digit (speed).
fn with_item_digit(number: u32, digit: u8) -> u32 {
    if number > 99999999 {
        return number;
    }
    number * 10 + u32::from(digit)
}

// The number whose digits come next, up to the largest, or 0; the byte that ends it is passed over.
pub fn read_number(bytes: &mut Iter<'_, u8>) -> u32 {
    let mut number = 0;
    for b in bytes {
        match *b {
            b'0'..=b'9' => number = with_digit(number, *b - b'0'),
            _ => return number,
        }
    }
    number
}

// What the end of a number ends: nothing, a word of the kind in front of it, or a repetition, by how often.
#[derive(Clone, Copy)]
enum Ends {
    Nothing,
    Word(u32),
    Repetition,
}

// What has been read of a line: the number that is being read and what it ends, the words that are stored, and where the last group and the last item
// begin among them.
#[derive(Drop)]
struct Reading<'a> {
    number: u32,
    ends: Ends,
    words: &'a mut [u32],
    stored: usize,
    group: usize,
    item: usize,
    ghost order: { (group ≤ stored) × (item ≤ stored) × (stored ≤ length words.now) },
}

// Repeats the words of a place until they stand there so many times, as far as there is room. Answers how many it added.
fn repeat_words(words: &mut [u32], from: usize, to: usize, times: u32) -> usize
    requires { (from ≤ to) × (to ≤ length words.old) }
    ensures { to + result ≤ length words.new }
{
    let (stored, free) = words.split_at_mut(to);
    let item = &stored[from..];
    let more = item.len().saturating_mul(times.saturating_sub(1) as usize);
    let count = more.min(free.len());
    for (word, again) in free[..count].iter_mut().zip(item.iter().cycle()) {
        *word = *again;
    }
    count
}

impl Reading<'_> {
    // The item is the word, if it is one and there is room.
    fn store(&mut self, kind: u32, payload: u32)
        ensures { self.new.words.ghost_name ≡ self.old.words.ghost_name }
    {
        self.item = self.stored;
        if kind > 63 || payload > 67108863 {
            return;
        }
        if let Some(word) = self.words.get_mut(self.stored) {
            *word = words::word_of(kind, payload);
            self.stored += 1;
        }
    }

    // Repeats the words from the item on until they stand there so many times, as far as there is room. The item is what was added.
    fn repeat(&mut self, times: u32)
        ensures { self.new.words.ghost_name ≡ self.old.words.ghost_name }
    {
        let words = &mut *self.words;
        let more = repeat_words(words, self.item, self.stored, times);
        self.item = self.stored;
        self.stored += more;
    }

    // What ends behind a digit or a colon.
    fn end_item(&mut self)
        ensures { self.new.words.ghost_name ≡ self.old.words.ghost_name }
    {
        match self.ends {
            Ends::Nothing => {}
            Ends::Word(kind) => self.store(kind, self.number),
            Ends::Repetition => self.repeat(self.number),
        }
        self.number = 0;
        self.ends = Ends::Nothing;
    }

    // One byte more: a digit, the colon behind a kind, or the end of an item.
    fn read(&mut self, b: u8)
        ensures { self.new.words.ghost_name ≡ self.old.words.ghost_name }
    {
        match b {
            b'0'..=b'9' => self.number = with_item_digit(self.number, b - b'0'),
            b':' => {
                self.ends = Ends::Word(self.number);
                self.number = 0;
            }
            _ => {
                self.end_item();
                match b {
                    b'(' => {
                        self.group = self.stored;
                        self.item = self.stored;
                    }
                    b')' => self.item = self.group,
                    b'*' => self.ends = Ends::Repetition,
                    _ => {}
                }
            }
        }
    }

    fn read_all(&mut self, line: &[u8])
        ensures { self.new.words.ghost_name ≡ self.old.words.ghost_name }
    {
        for b in line {
            self.read(*b);
        }
        self.end_item();
    }
}

// The words of a line's bytes, as many as there is room for, and their number.
pub fn read_words(ws: &mut [u32], line: &[u8]) -> usize
    ensures { result ≤ length ws.new }
{
    let mut reading = Reading {
        number: 0,
        ends: Ends::Nothing,
        words: ws,
        stored: 0,
        group: 0,
        item: 0,
    };
    reading.read_all(line);
    reading.stored
}

// The bytes in front of the first such one, and the rest, which begins with it.
pub fn split_before(text: &[u8], byte: u8) -> (&[u8], &[u8])
    ensures whole { result.0.now ++ result.1.now ≡ text.now }
    ensures front { All (λ b. b ≢ byte) result.0.now }
{
    let len = text.iter().position(|b| *b == byte).unwrap_or(text.len());
    text.split_at(len)
}

// Writes the bytes and ends the line.
fn write_line(rt: &impl Print, bytes: &[u8]) -> io::Result<()> {
    rt.write_all(bytes)?;
    rt.write_all(b"\n")
}

// Runs the case of each line of standard input: what stands in front of '#'. Writes how it came out, and the rest of the line, which says what the case
// shows. A line that begins with '#' is a heading, and written as it is, as an empty one is.
pub fn run<R: Input + Print + AllocGlobal, F: FnMut(&[u8]) -> Outcome>(
    rt: &R,
    mut run_case: F,
) -> io::Result<Tally>
    requires { F.IsAlwaysCallable run_case }
    ensures at_most { IfOk result (λ t. t.wrong ≤ t.cases) }
    ensures capped { IfOk result (λ t. t.cases ≤ 1000000) }
{
    let mut text = Vec::new(rt.alloc());
    rt.reader().read_to_end(&mut text)?;
    let mut tally = Tally { cases: 0, wrong: 0 };
    for line in text.split_inclusive(|b| *b == b'\n') {
        let line = line.strip_suffix(b"\n").unwrap_or(line);
        let (case, title) = split_before(line, b'#');
        if case.is_empty() {
            write_line(rt, line)?;
            continue;
        }
        let outcome = run_case(case);
        tally.count(outcome.right);
        let mark = if outcome.right { "ok   " } else { "WRONG" };
        match outcome.answer {
            Some(answer) => print!(rt; "{mark} {answer} ")?,
            None => print!(rt; "{mark} ")?,
        }
        write_line(rt, title)?;
    }
    Ok(tally.capped())
}

#[cfg(test)]
mod tests {
    use super::*;

    #[test]
    fn reads_every_number(rt: HostRuntime) {
        let cases = [
            ("", 0),
            ("7", 7),
            ("0042 9", 42),
            ("999999999", 999999999),
            ("1000000000", 1000000000),
            ("4294967295 ", 4294967295),
            ("4294967296", 4294967295),
            ("99999999999999999999", 4294967295),
            ("x5", 0),
        ];
        for (text, number) in cases {
            assert_eq!(rt;
                read_number(&mut text.as_bytes().iter()),
                number,
                "at '{text}'"
            );
        }
    }
}
