// Words written as lines of kind:payload in decimal. A text is read byte by byte, in pieces of any length; its words go to a lent slice, as many as
// there is room for. The first bad line ends the reading.
#![tactic(auto)]

ghost use Rattle.std.specs.Prelude.{◌≡◌, [], ◌∷◌, ◌<◌, ◌≤◌, length, IfSome, Some};
ghost use Rattle.line_reader.specs.Line.{digit_of, is_blank, from_start, from_blank, from_kind, from_colon, from_payload, from_end, at_end, within, is_bad, Fit};
ghost use Rattle.line_reader.specs.Texts.{text_of};
ghost use Rattle.line_reader.specs.Text.{Stored, word_of_line, next_line, Follows, Ready};

use std::fmt;

// The largest kind, and the largest payload.
const MAX_KIND: u32 = 63;

const MAX_PAYLOAD: u32 = 67108863;

// Why a line is bad.
#[derive(Clone, Copy, PartialEq, Eq, Debug)]
pub enum Fault {
    NoKind,
    NoColon,
    NoPayload,
    KindTooLarge,
    PayloadTooLarge,
    NotADigit,
    // Blanks in front of anything else.
    LeadingBlank,
    // Blanks, and something behind them.
    SecondItem,
}

impl fmt::Display for Fault {
    ghost output = { λ f. Some (text_of f) };

    fn fmt<W: fmt::Write>(&self, f: &mut fmt::Formatter<W>) -> fmt::Result {
        let text = match self {
            Fault::NoKind => "no kind in front of the colon",
            Fault::NoColon => "no colon",
            Fault::NoPayload => "no payload behind the colon",
            Fault::KindTooLarge => "the kind is over 63",
            Fault::PayloadTooLarge => "the payload is over 67108863",
            Fault::NotADigit => "neither a digit nor the colon",
            Fault::LeadingBlank => "a blank in front",
            Fault::SecondItem => "more than one word",
        };
        f.write_str(text)
    }
}

// What has been read of a line. Its limits are the clause `Fit`, not an invariant: an enum has no ghost field, and a struct for each number would put
// proofs into every definition of specs/.
#[derive(Clone, Copy, PartialEq, Eq, Debug)]
pub enum Stage {
    Start,
    // Nothing but blanks.
    Blank,
    // Digits of the kind.
    Kind(u32),
    // The kind and the colon.
    Colon(u32),
    // Digits of the payload behind them.
    Payload(u32, u32),
    // Blanks behind kind and payload.
    End(u32, u32),
    Bad(Fault),
}

// The value of a decimal digit. From the byte, not by `to_digit`: its number would be put together with the digits before it in one step more (speed).
#[tactic(auto, unfolding(crate::specs::Line::digit_of))]
fn digit(b: u8) -> Option<u32>
    ensures value { result ≡ digit_of b }
    ensures small { IfSome result (λ d. d < 10) }
{
    match b {
        b'0'..=b'9' => Some(u32::from(b - b'0')),
        _ => None,
    }
}

// A space, a tab or a carriage return.
#[tactic(auto, unfolding(crate::specs::Line::is_blank))]
fn is_blank(b: u8) -> bool
    ensures { result ≡ is_blank b }
{
    matches!(b, b' ' | b'\t' | b'\r')
}

// The stage of a line whose number is too large. Apart, so that the compiler jumps there and makes no selects for each digit (speed).
#[inline(never)]
fn too_large(fault: Fault) -> Stage
    ensures { result ≡ Stage.Bad fault }
{
    Stage::Bad(fault)
}

// One byte more, other than a line feed: of a line that has none yet, and so by stage.
#[tactic(auto, unfolding(crate::specs::Line::from_start))]
fn from_start(b: u8) -> Stage
    ensures { result ≡ from_start b }
{
    match digit(b) {
        Some(d) => Stage::Kind(d),
        None if b == b':' => Stage::Bad(Fault::NoKind),
        None if is_blank(b) => Stage::Blank,
        None => Stage::Bad(Fault::NotADigit),
    }
}

#[tactic(auto, unfolding(crate::specs::Line::from_blank))]
fn from_blank(b: u8) -> Stage
    ensures { result ≡ from_blank b }
{
    if is_blank(b) {
        Stage::Blank
    } else {
        Stage::Bad(Fault::LeadingBlank)
    }
}

#[tactic(auto, unfolding(crate::specs::Line::from_kind, crate::specs::Line::Fit))]
fn from_kind(k: u32, b: u8) -> Stage
    requires { Fit (Stage.Kind k) }
    ensures { result ≡ from_kind k b }
{
    match digit(b) {
        Some(d) if k * 10 + d > MAX_KIND => too_large(Fault::KindTooLarge),
        Some(d) => Stage::Kind(k * 10 + d),
        None if b == b':' => Stage::Colon(k),
        None if is_blank(b) => Stage::Bad(Fault::NoColon),
        None => Stage::Bad(Fault::NotADigit),
    }
}

#[tactic(auto, unfolding(crate::specs::Line::from_colon))]
fn from_colon(k: u32, b: u8) -> Stage
    ensures { result ≡ from_colon k b }
{
    match digit(b) {
        Some(d) => Stage::Payload(k, d),
        None if is_blank(b) => Stage::Bad(Fault::NoPayload),
        None => Stage::Bad(Fault::NotADigit),
    }
}

#[tactic(auto, unfolding(crate::specs::Line::from_payload, crate::specs::Line::Fit))]
fn from_payload(k: u32, p: u32, b: u8) -> Stage
    requires { Fit (Stage.Payload k p) }
    ensures { result ≡ from_payload k p b }
{
    match digit(b) {
        Some(d) if p * 10 + d > MAX_PAYLOAD => too_large(Fault::PayloadTooLarge),
        Some(d) => Stage::Payload(k, p * 10 + d),
        None if is_blank(b) => Stage::End(k, p),
        None => Stage::Bad(Fault::NotADigit),
    }
}

#[tactic(auto, unfolding(crate::specs::Line::from_end))]
fn from_end(k: u32, p: u32, b: u8) -> Stage
    ensures { result ≡ from_end k p b }
{
    if is_blank(b) {
        Stage::End(k, p)
    } else {
        Stage::Bad(Fault::SecondItem)
    }
}

impl Stage {
    // One byte more, other than a line feed.
    #[tactic(auto, unfolding(crate::specs::Line::within, crate::specs::Line::Fit))]
    fn within(self, b: u8) -> Stage
        requires { Fit self }
        ensures { result ≡ within self b }
    {
        match self {
            Stage::Start => from_start(b),
            Stage::Blank => from_blank(b),
            Stage::Kind(k) => from_kind(k, b),
            Stage::Colon(k) => from_colon(k, b),
            Stage::Payload(k, p) => from_payload(k, p, b),
            Stage::End(k, p) => from_end(k, p, b),
            Stage::Bad(_) => self,
        }
    }

    // The line feed.
    #[tactic(auto, unfolding(crate::specs::Line::at_end))]
    fn at_end(self) -> Stage
        ensures { result ≡ at_end self }
    {
        match self {
            Stage::Kind(_) => Stage::Bad(Fault::NoColon),
            Stage::Colon(_) => Stage::Bad(Fault::NoPayload),
            Stage::Bad(_) => self,
            _ => Stage::Start,
        }
    }

    #[tactic(auto, unfolding(crate::specs::Line::is_bad))]
    fn is_bad(self) -> bool
        ensures { result ≡ is_bad self }
    {
        matches!(self, Stage::Bad(_))
    }

    // Stores the word of a line that ends, if it has one.
    fn store(self, ws: &mut [u32], at: usize) -> usize
        requires { Fit self × (at ≤ length ws.old) }
        ensures { Stored ws.old at (word_of_line self) ws.new result }
    {
        match self {
            // Two arms, not one: the compiler then makes one jump of what goes by the stage at a line feed (speed).
            Stage::Payload(k, p) => store(ws, at, words::word_of(k, p)),
            Stage::End(k, p) => store(ws, at, words::word_of(k, p)),
            _ => at,
        }
    }
}

// Stores a word if there is room. Not `output::put`: the place stays at the end of a full slice, and a slice may have more than 2 ^ 32 words.
#[tactic(auto, using(crate::specs::Text::stored_one, crate::specs::Text::stored_out))]
fn store(ws: &mut [u32], at: usize, w: u32) -> usize
    requires { at ≤ length ws.old }
    ensures { Stored ws.old at (w ∷ []) ws.new result }
{
    if at < ws.len() {
        ws[at] = w;
        at + 1
    } else {
        at
    }
}

// The number of the line to read after a line feed that led to this stage: a bad line isn't left.
#[tactic(auto, unfolding(crate::specs::Text::next_line, crate::specs::Text::max_line))]
fn next_line(s: Stage, line: u64) -> u64
    ensures { result ≡ next_line s line }
{
    if s.is_bad() {
        line
    } else {
        line.saturating_add(1)
    }
}

// What has been read of a text: the line being read, its number, and the number of words that were stored.
#[derive(Clone, Copy, PartialEq, Eq, Debug)]
pub struct Reading {
    pub stage: Stage,
    pub line: u64,
    pub stored: usize,
}

impl Reading {
    // Before the first byte of a text.
    pub fn start() -> Reading
        ensures { (result.stage ≡ Stage.Start) × (result.line ≡ 1) × (result.stored ≡ 0) }
    {
        Reading {
            stage: Stage::Start,
            line: 1,
            stored: 0,
        }
    }

    // One byte more of the text.
    fn read_byte(&mut self, b: u8, ws: &mut [u32])
        requires { Ready ws.old self.old }
        ensures { Follows (b ∷ []) ws.old self.old ws.new self.new }
    {
        if b == b'\n' {
            self.stored = self.stage.store(ws, self.stored);
            self.stage = self.stage.at_end();
            self.line = next_line(self.stage, self.line);
        } else {
            self.stage = self.stage.within(b);
        }
    }

    // The next bytes of the text. A line feed behind the last byte of a text ends its last line.
    #[tactic(auto, using(crate::specs::Text::follows_all, crate::specs::Text::ready_after))]
    pub fn read(&mut self, bytes: &[u8], ws: &mut [u32])
        requires { Ready ws.old self.old }
        ensures { Follows bytes.now ws.old self.old ws.new self.new }
    {
        // A copy: what has been read stays in registers from byte to byte (speed).
        let mut reading = *self;
        for b in bytes {
            reading.read_byte(*b, ws);
        }
        *self = reading;
    }
}
