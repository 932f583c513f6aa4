// The public call: a module's words rewritten, every refusal in its order. Reads the words, writes the output only once it is known to be long enough.
#![tactic(auto)]

ghost use Rattle.std.specs.Prelude.{◌≡◌, ◌≤◌, ◌*◌, ℕ, List, IfOk, OnOk, leb, length, take, refl};
ghost use Rattle.std.proofs.Common.{ap};
ghost use Rattle.grammar.specs.Scan.{refusal};
ghost use Rattle.grammar.specs.Refusals.{code_of};
ghost use Rattle.rewriting.specs.Answer.{turned_back, module_words, answer_of, rewrite_answer, rewrite_lent};
ghost use Rattle.rewriting.proofs.Length.{module_length};
ghost use Rattle.rewriting.specs.DemandWords.{DemandWords};
ghost use Rattle.counter.specs.Contract.{Planned, Annotated};
ghost use Rattle.rewriter.specs.Numbers.{numbers_of};
ghost use Rattle.rewriter.specs.Lends.{Lends};
ghost use Rattle.rewriter.specs.Result.{Writes};

use class_stack::ClassStack;
use grammar::Refusal;
use records::{BLANK, Note};

// What a call wrote: how many words, and how many fresh symbols there are.
#[derive(Clone, Copy, Debug, PartialEq, Eq)]
pub struct Written {
    pub words: usize,
    pub fresh: u32,
}

// The three numbers that a call returns to C, a case or the program: 0 or the refusal's number, then the two of `Written`, 0 where the module is refused.
#[derive(Clone, Copy, Debug, PartialEq, Eq)]
pub struct Numbers {
    pub code: u32,
    pub written: usize,
    pub fresh: u32,
}

impl From<Result<Written, Refusal>> for Numbers {
    ghost from_gives = { λ r n. (n.code ≡ (numbers_of r).code) × (n.written ≡ (numbers_of r).written) × (n.fresh ≡ (numbers_of r).fresh) };

    fn from(answer: Result<Written, Refusal>) -> Numbers {
        match answer {
            Ok(Written { words, fresh }) => Numbers {
                code: 0,
                written: words,
                fresh,
            },
            Err(refusal) => Numbers {
                code: u32::from(refusal),
                written: 0,
                fresh: 0,
            },
        }
    }
}

// What a call is for: the rewriting or the symbol report. Its answer for a module is the list `words`, in any order that counts as the `Same`.
pub trait Job {
    ghost words: { List ℕ → List ℕ };

    ghost Same: { List ℕ → List ℕ → Type 0 };

    // The call on a module that validation accepts; notes for all of its words are lent.
    fn run(ws: &[u32], notes: &mut [Note], out: &mut [u32]) -> Result<Written, Refusal>
        requires { (refusal ws.now ≡ 0) × (length ws.now ≤ length notes.old) }
        ensures numbers { numbers_of result ≡ answer_of ws.now (words ws.now) (length out.old) }
        ensures lent { Lends Same ws.now (words ws.now) out.old out.new };

    ghost in_order: { (xs : List ℕ) → Same xs xs };

    ghost as_many: { (ws ys : List ℕ) → refusal ws ≡ 0 → Same ys (words ws) → length ys ≡ length (words ws) };

    ghost fits: { (ws : List ℕ) → refusal ws ≡ 0 → length (words ws) ≤ 3 * length ws };
}

// The call on any words. A module that validation refuses takes no notes, any other takes notes of one of three sizes: short ones are cleared sooner.
pub fn perform<J: Job>(ws: &[u32], out: &mut [u32]) -> Result<Written, Refusal>
    ensures numbers { numbers_of result ≡ answer_of ws.now (J.words ws.now) (length out.old) }
    ensures lent { Lends J.Same ws.now (J.words ws.now) out.old out.new }
{
    validation::validate(ws)?;
    if ws.len() <= 64 {
        return with_notes::<J, 64>(ws, out);
    }
    if ws.len() <= 512 {
        return with_notes::<J, 512>(ws, out);
    }
    with_notes::<J, 4096>(ws, out)
}

// The call on a module of at most N words that validation accepts.
fn with_notes<J: Job, const N: usize>(ws: &[u32], out: &mut [u32]) -> Result<Written, Refusal>
    requires { (refusal ws.now ≡ 0) × (length ws.now ≤ N) × (N ≤ 4096) }
    ensures numbers { numbers_of result ≡ answer_of ws.now (J.words ws.now) (length out.old) }
    ensures lent { Lends J.Same ws.now (J.words ws.now) out.old out.new }
{
    let mut notes = [BLANK; N];
    J::run(ws, &mut notes, out)
}

// Rewrites the module in `ws`; the answer's words go to the start of `out`.
pub fn rewrite(ws: &[u32], out: &mut [u32]) -> Result<Written, Refusal>
    ensures numbers { numbers_of result ≡ rewrite_answer ws.now out.old }
    ensures lent { out.new ≡ rewrite_lent ws.now out.old }
    ensures demand { IfOk result (λ w. DemandWords ws.now (take w.words out.new)) }
{
    perform::<Rewriting>(ws, out)
}

// The job of rewriting.
pub struct Rewriting;

impl Job for Rewriting {
    ghost words = { module_words };

    ghost Same = { λ ys xs. ys ≡ xs };

    fn run(ws: &[u32], notes: &mut [Note], out: &mut [u32]) -> Result<Written, Refusal> {
        turned_back_by(ws, notes)?;
        count_table::find_counts(ws, notes, inspect::payload_at(ws, 1));
        if !has_room(ws, notes, out.len()) {
            return Err(Refusal::OutputTooShort);
        }
        let r = write_module(ws, notes, out);
        let fresh = r.state.next - inspect::payload_at(ws, 1);
        Ok(Written {
            words: r.pos,
            fresh,
        })
    }

    ghost in_order = { λ xs. refl };

    ghost as_many = { λ ws ys ok e. ap length e };

    ghost fits = { module_length };
}

// `rewrite` of a module that validation accepts; notes for all of its words are lent.
pub fn rewrite_by(ws: &[u32], notes: &mut [Note], out: &mut [u32]) -> Result<Written, Refusal>
    requires { (refusal ws.now ≡ 0) × (length ws.now ≤ length notes.old) }
    ensures numbers { numbers_of result ≡ rewrite_answer ws.now out.old }
    ensures lent { out.new ≡ rewrite_lent ws.now out.old }
    ensures demand { IfOk result (λ w. DemandWords ws.now (take w.words out.new)) }
{
    Rewriting::run(ws, notes, out)
}

// Refusals 1 to 7.
pub fn turned_back(ws: &[u32]) -> Result<(), Refusal>
    ensures { code_of result ≡ turned_back ws.now }
{
    validation::validate(ws)?;
    let mut notes = [BLANK; 4096];
    turned_back_by(ws, &mut notes)
}

// `turned_back` of a module that validation accepts, for `Rewriting` and for `symbol_report`; notes for all of its words are lent, and with `Ok` they have
// the ends and the marks.
pub fn turned_back_by(ws: &[u32], notes: &mut [Note]) -> Result<(), Refusal>
    requires { (refusal ws.now ≡ 0) × (length ws.now ≤ length notes.old) }
    ensures { (code_of result ≡ turned_back ws.now) × OnOk result (Planned ws.now notes.new) × (length notes.new ≡ length notes.old) }
{
    records::find_ends(ws, notes);
    if mark_table::find_marks(ws, notes) {
        return Err(Refusal::DecoratedLaterConstructor);
    }
    Ok(())
}

// Whether `room` words are enough for what the module becomes. Three times its words always are (`module_length`); else they are counted.
fn has_room(ws: &[u32], notes: &[Note], room: usize) -> bool
    requires { (refusal ws.now ≡ 0) × Planned ws.now notes.now × Annotated ws.now notes.now 0 }
    ensures { result ≡ leb (length (module_words ws.now)) room }
{
    // Not one `||`: the second test has `let`s of its own.
    if ws.len() <= room / 3 {
        return true;
    }
    let mut none = [0u32; 0];
    let m = write_module(ws, notes, &mut none);
    m.pos <= room
}

// What the module becomes, at the start of the output, cut where that ends.
fn write_module(ws: &[u32], notes: &[Note], out: &mut [u32]) -> transform::Walk
    requires { (refusal ws.now ≡ 0) × Planned ws.now notes.now × Annotated ws.now notes.now 0 }
    ensures { Writes ws.now out.old out.new result }
{
    let s = inspect::payload_at(ws, 1);
    transform::program(ws, notes, s, ClassStack::new(), out)
}
