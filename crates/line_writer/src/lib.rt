// Numbers and words as lines of decimal digits, written to a lent slice of bytes and cut where it ends. Touches nothing else.
// By place, not by `write!` and `Display`: `output::put` says what a slice that is too short holds. The three numbers are not `rewriter::Numbers`: this
// crate stands below the rewriter.
#![tactic(auto)]

ghost use Rattle.std.specs.Prelude.{◌+◌, ◌*◌, ◌^◌, ◌<◌, length};
ghost use Rattle.output.specs.Overlay.{Wrote};
ghost use Rattle.line_writer.specs.Decimal.{line_of, lines_of, head_of, answer_text};

use itoa::{Buffer, Integer};
use output::{put, put_all};

// A number's digits.
fn put_number<I: Integer>(out: &mut [u8], at: usize, n: I) -> usize
    requires { at + length (I.text n) < 2 ^ 32 }
    ensures { Wrote out.old at (I.text n) out.new result }
{
    let mut digits = Buffer::new();
    put_all(out, at, digits.format(n).as_bytes())
}

// The line of a word: kind:payload.
#[tactic(auto, using(crate::specs::Digits::length_kind, crate::specs::Digits::length_payload))]
fn put_word(out: &mut [u8], at: usize, w: u32) -> usize
    requires { at + 12 < 2 ^ 32 }
    ensures { Wrote out.old at (line_of w) out.new result }
{
    let colon = put_number(out, at, words::kind_of(w));
    let payload = put(out, colon, b':');
    let end = put_number(out, payload, words::payload_of(w));
    put(out, end, b'\n')
}

// The line of an answer's three numbers.
#[tactic(auto, using(crate::specs::Digits::length_number))]
fn put_head(out: &mut [u8], at: usize, code: u64, written: u64, fresh: u64) -> usize
    requires { at + 63 < 2 ^ 32 }
    ensures { Wrote out.old at (head_of code written fresh) out.new result }
{
    let a = put_number(out, at, code);
    let b = put(out, a, b' ');
    let c = put_number(out, b, written);
    let d = put(out, c, b' ');
    let e = put_number(out, d, fresh);
    put(out, e, b'\n')
}

// An answer: its three numbers on one line, then its words, one to a line.
pub fn put_answer(out: &mut [u8], code: u64, written: u64, fresh: u64, ws: &[u32]) -> usize
    requires { 63 + 12 * length ws.now < 2 ^ 32 }
    ensures { Wrote out.old 0 (answer_text code written fresh ws.now) out.new result }
{
    let mut next = put_head(out, 0, code, written, fresh);
    for w in ws {
        next = put_word(out, next, *w);
    }
    next
}
