// The calls of the C entry, which host_c exports: a module's bytes in, the bytes of what it becomes out, one number back. Keeps nothing between calls.
#![tactic(auto)]

ghost use Rattle.std.specs.Prelude.{◌≡◌, ◌+◌, ◌*◌, ◌/◌, ◌%◌, ◌≤◌, length, take};
ghost use Rattle.output.specs.Overlay.{overlay};
ghost use Rattle.grammar.specs.Scan.{refusal};
ghost use Rattle.grammar.specs.Refusals.{code_of};
ghost use Rattle.rewriting.specs.DemandWords.{DemandWords};
ghost use Rattle.rewriter.specs.Numbers.{numbers_of};
ghost use Rattle.host.specs.Bytes.{words_of_bytes, bytes_from, bytes_of_words, Small};
ghost use Rattle.host.specs.Entry.{number_of, InFields, answer_in, answer_bytes, is_bad_length, rewrite_bytes, rewrite_bytes_lent, report_bytes, ReportBytesLent};
ghost use Rattle.host.specs.LendsBytes.{LendsBytes};

use grammar::Refusal;
use records::{BLANK, Note};
use rewriter::{Job, Numbers, Rewriting, Written};
use symbol_report::Reporting;

// Rewrites the module in `bytes`; the answer's bytes go to the start of `out`. The number holds the three answers.
#[unsafe(no_mangle)]
pub extern "C" fn gingerpost_rewrite(bytes: &[u8], out: &mut [u8]) -> u64
    ensures number { result ≡ number_of (rewrite_bytes bytes.now out.old) }
    ensures lent { out.new ≡ rewrite_bytes_lent bytes.now out.old }
    ensures demand { (answer_in result).code ≡ 0 → DemandWords (words_of_bytes bytes.now) (take (answer_in result).written (words_of_bytes out.new)) }
{
    number(entry::<Rewriting>(bytes, out))
}

// Writes the symbol report of the module in `bytes` to the start of `out`. The number holds the three answers.
#[unsafe(no_mangle)]
pub extern "C" fn gingerpost_report(bytes: &[u8], out: &mut [u8]) -> u64
    ensures number { result ≡ number_of (report_bytes bytes.now out.old) }
    ensures lent { ReportBytesLent bytes.now out.old out.new }
{
    number(entry::<Reporting>(bytes, out))
}

// The job on bytes, with arrays of one of five sizes: memory is fixed, and short arrays are cleared sooner. A line for each size: no const argument can be
// computed.
#[tactic(auto, using(crate::specs::EntryLaws::good_length))]
fn entry<J: Job>(bytes: &[u8], out: &mut [u8]) -> Result<Written, Refusal>
    ensures numbers { numbers_of result ≡ answer_bytes bytes.now (J.words (words_of_bytes bytes.now)) out.old }
    ensures lent { LendsBytes J.Same bytes.now (J.words (words_of_bytes bytes.now)) out.old out.new }
{
    if is_bad_length(bytes.len()) {
        return Err(Refusal::BadLength);
    }
    if bytes.len() <= 256 {
        return entry_by::<J, 64, 192>(bytes, out);
    }
    if bytes.len() <= 512 {
        return entry_by::<J, 128, 384>(bytes, out);
    }
    if bytes.len() <= 2048 {
        return entry_by::<J, 512, 1536>(bytes, out);
    }
    if bytes.len() <= 4096 {
        return entry_by::<J, 1024, 3072>(bytes, out);
    }
    entry_by::<J, 4096, 12288>(bytes, out)
}

// The job on the bytes of at most WORDS words; the answer has at most three times as many. What validation refuses takes the words' array alone. Each size
// stands apart, so that a call touches the pages of its own arrays only.
#[inline(never)]
fn entry_by<J: Job, const WORDS: usize, const ROOM: usize>(
    bytes: &[u8],
    out: &mut [u8],
) -> Result<Written, Refusal>
    requires { (length bytes.now % 4 ≡ 0) × (length bytes.now ≤ 4 * WORDS) × (3 * WORDS ≤ ROOM) × (ROOM ≤ 12288) }
    ensures numbers { numbers_of result ≡ answer_bytes bytes.now (J.words (words_of_bytes bytes.now)) out.old }
    ensures lent { LendsBytes J.Same bytes.now (J.words (words_of_bytes bytes.now)) out.old out.new }
{
    let n = bytes.len() / 4;
    let mut ws = [0u32; WORDS];
    read(bytes, &mut ws)?;
    let mut notes = [BLANK; WORDS];
    let mut written = [0u32; ROOM];
    let answer = J::run(&ws[..n], &mut notes, &mut written)?;
    if out.len() / 4 < answer.words {
        return Err(Refusal::OutputTooShort);
    }
    unpack(&written[..answer.words], out);
    Ok(answer)
}

// Whether so many bytes are refused at once: no multiple of 4, or over 4,096 words.
fn is_bad_length(n: usize) -> bool
    ensures { result ≡ is_bad_length n }
{
    n % 4 != 0 || 16384 < n
}

// The words of the bytes, at the start of `ws`, and the refusal that validation has for them.
#[inline(always)]
fn read(bytes: &[u8], ws: &mut [u32]) -> Result<(), Refusal>
    requires { (length bytes.now % 4 ≡ 0) × (length bytes.now ≤ 4 * length ws.old) }
    ensures { (take (length bytes.now / 4) ws.new ≡ words_of_bytes bytes.now) × (code_of result ≡ refusal (words_of_bytes bytes.now)) }
{
    let n = bytes.len() / 4;
    pack(bytes, ws);
    validation::validate(&ws[..n])
}

// The words of the bytes, at the start of `ws`. In line, as `read` is: of the caller's own array it is known that it is apart from the bytes, so that they
// are copied in one piece (speed).
#[inline(always)]
fn pack(bytes: &[u8], ws: &mut [u32])
    requires { length bytes.now ≤ 4 * length ws.old }
    ensures { take (length bytes.now / 4) ws.new ≡ words_of_bytes bytes.now }
{
    // An index, not a zip with `iter_mut`: behind that loop nothing is known of the words, so that the proof doesn't close.
    for i in 0..bytes.len() / 4 {
        let at = 4 * i;
        ws[i] = u32::from_le_bytes([bytes[at], bytes[at + 1], bytes[at + 2], bytes[at + 3]]);
    }
}

// The bytes of the words, at the start of `out`.
fn unpack(ws: &[u32], out: &mut [u8])
    requires { 4 * length ws.now ≤ length out.old }
    ensures bytes { out.new ≡ overlay out.old 0 (bytes_of_words ws.now) }
    ensures small { Small ws.now }
{
    for (i, w) in ws.iter().enumerate() {
        store_word(out, 4 * i, *w);
    }
}

// The four bytes of a word, lowest first, from `at` on.
fn store_word(out: &mut [u8], at: usize, w: u32)
    requires { at + 4 ≤ length out.old }
    ensures { out.new ≡ overlay out.old at (bytes_from w) }
{
    out[at..at + 4].copy_from_slice(&w.to_le_bytes());
}

// The number that holds an answer's three.
fn number(answer: Result<Written, Refusal>) -> u64
    requires { InFields (numbers_of answer) }
    ensures { result ≡ number_of (numbers_of answer) }
{
    let n = Numbers::from(answer);
    n.code as u64 | (n.written as u64) << 8 | (n.fresh as u64) << 36
}
