// The symbol report: one word for each fresh symbol of a module's rewriting, every refusal in its order. Reads the words, writes the output only once
// it is known to be long enough.
#![tactic(auto)]

ghost use Rattle.std.specs.Prelude.{◌≡◌, leb, length};
ghost use Rattle.grammar.specs.Scan.{refusal};
ghost use Rattle.rewriting.specs.Answer.{report_words, report_answer, Reordered, ReportLent};
ghost use Rattle.counter.specs.Contract.{Planned};
ghost use Rattle.rewriter.specs.Numbers.{numbers_of};
ghost use Rattle.symbol_report.specs.Result.{WritesReport, in_order, as_many, report_fits};

use grammar::Refusal;
use records::Note;
use report_walk::Walk;
use rewriter::{Job, Written};
use rewriting::{Around, State};

// Writes the report of the module in `ws` to the start of `out`. The order of its words is free.
pub fn report(ws: &[u32], out: &mut [u32]) -> Result<Written, Refusal>
    ensures numbers { numbers_of result ≡ report_answer ws.now out.old }
    ensures lent { ReportLent ws.now out.old out.new }
{
    rewriter::perform::<Reporting>(ws, out)
}

// The job of the symbol report.
pub struct Reporting;

impl Job for Reporting {
    ghost words = { report_words };

    ghost Same = { Reordered };

    // Not one function with the rewriting's `run`: what the notes need, the walk and its answer differ, so that the trait would have more members than this
    // has lines.
    fn run(ws: &[u32], notes: &mut [Note], out: &mut [u32]) -> Result<Written, Refusal> {
        rewriter::turned_back_by(ws, notes)?;
        if !has_room(ws, notes, out.len()) {
            return Err(Refusal::OutputTooShort);
        }
        let r = write_report(ws, notes, out);
        let fresh = r.state.next - inspect::payload_at(ws, 1);
        Ok(Written {
            words: r.pos,
            fresh,
        })
    }

    ghost in_order = { in_order };

    ghost as_many = { as_many };

    ghost fits = { report_fits };
}

// Whether `room` words are enough for the module's report. A third of its words always are (`report_length`); else they are counted. Not one function with
// the rewriter's: another bound and another walk, so that only the comparisons are alike.
fn has_room(ws: &[u32], notes: &[Note], room: usize) -> bool
    requires { (refusal ws.now ≡ 0) × Planned ws.now notes.now }
    ensures { result ≡ leb (length (report_words ws.now)) room }
{
    // Not one `||`: the second test has `let`s of its own.
    if ws.len() / 3 <= room {
        return true;
    }
    let mut none = [0u32; 0];
    let m = write_report(ws, notes, &mut none);
    m.pos <= room
}

// The module's report, at the start of the output, cut where that ends.
fn write_report(ws: &[u32], notes: &[Note], out: &mut [u32]) -> Walk
    requires { (refusal ws.now ≡ 0) × Planned ws.now notes.now }
    ensures { WritesReport ws.now out.old out.new result }
{
    let s = inspect::payload_at(ws, 1);
    report_walk::report_record(
        ws,
        notes,
        Around {
            live: false,
            id: None,
        },
        Walk {
            at: 0,
            pos: 0,
            state: State {
                next: s,
                default: None,
            },
        },
        out,
    )
}
