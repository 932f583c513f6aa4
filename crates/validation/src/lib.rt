// Validation: refusals 1 to 6 of a module's words. Reads the words, writes nothing.
// Flags of a payload are read where they are asked, as the definitions do (`bit0`, `bit1`, `bit2` in words/specs/Word): a payload's bits are the word's form.
#![tactic(auto)]

ghost use Rattle.std.specs.Prelude.{◌≡◌, ◌≢◌, ◌+◌, ◌-◌, ◌*◌, ◌<◌, ◌≤◌, ◌↔◌, true, cond, [], ◌∷◌, ◌++◌, length, IsTrue, IsNone, IfSome, MatchOption};
ghost use Rattle.words.specs.Word.{kind_of, payload_of};
ghost use Rattle.grammar.specs.Limits.{max_depth};
ghost use Rattle.words.specs.Shape.{bit_of};
ghost use Rattle.grammar.specs.Grammar.{row_of, allowed, class_under, method_decorators, parameter_of, parameter_decorators, Parameters, Parameter};
ghost use Rattle.grammar.specs.Slots.{slot_of};
ghost use Rattle.grammar.specs.Refusals.{code_of};
ghost use Rattle.grammar.specs.Scan.{top, places, judge, symbols_of, refusal};
ghost use Rattle.validation.specs.Sets.{leaves};
ghost use Rattle.validation.specs.Waiting.{waiting};

use grammar::{Refusal, Slot};
use std::marker::Model;
use words::Kind;

// A run of places that wait for records: so many of one slot. `left` is the number of levels that are left, the places' own counted: it falls from a record
// to its children.
#[derive(Clone, Copy)]
pub struct Run {
    pub slot: Slot,
    pub left: u32,
    pub count: u32,
}

impl Run {
    fn new(slot: Slot, left: u32, count: u32) -> Run
        ensures { result ≡ record { slot = slot; left = left; count = count } }
    {
        Run { slot, left, count }
    }
}

// The runs that wait behind the one that is read, the next one on top. A level takes four of them or fewer. An array and a length, not the kit's
// `ArrayVec<Run, N>`: with that it proves too, but each run that is taken is written over with a blank, and `validate` took 5 per cent more instructions
// on the cases of validation_cases and 8 on accepted modules of 4,000 words.
#[derive(Drop)]
struct Stack<const N: usize> {
    runs: [Run; N],
    len: usize,
}

// Clauses see the runs, the top first.
impl<const N: usize> Model for Stack<N> {
    ghost use Rattle.std.specs.Prelude.{List, ◌≤◌};
    ghost use Rattle.validation.specs.declared.Run.{Run};

    ghost Value = { List Run };

    ghost use Rattle.validation.specs.Waiting.{stacked, Roomy};

    ghost view = { λ s. stacked s.len s.runs };

    ghost invariant = { λ s. (s.len ≤ N) × (N ≤ 256) × Roomy (stacked s.len s.runs) };
}

impl<const N: usize> Stack<N> {
    fn new() -> Self
        requires { N ≤ 256 }
        ensures { result ≡ [] }
    {
        Stack {
            runs: [Run::new(Slot::Module, 0, 0); N],
            len: 0,
        }
    }

    // Is there room for a record's runs.
    fn has_room(&self) -> bool
        ensures { IsTrue result ↔ (length self.now + 4 ≤ N) }
    {
        let runs = &self.runs;
        self.len + 4 <= runs.len()
    }

    // The run on top, unless it has no place.
    fn push(&mut self, run: Run)
        requires room { length self.old < N }
        requires levels { length self.old + 4 * run.left ≤ 256 }
        ensures places { waiting self.new ≡ waiting (run ∷ self.old) }
        ensures few { length self.new ≤ length self.old + 1 }
    {
        if run.count != 0 {
            // Read once: behind the write to the array `self.len` would be read again (speed).
            let len = self.len;
            self.runs[len] = run;
            self.len = len + 1;
        }
    }

    // The run that has the next place: the given one, or that on top.
    fn next(&mut self, run: Run) -> Option<Run>
        requires { length self.old + 4 * run.left ≤ 256 }
        ensures none { IsNone result → waiting (run ∷ self.old) ≡ [] }
        ensures some { IfSome result (λ r. r.count ≢ 0) }
        ensures places { IfSome result (λ r. waiting (r ∷ self.new) ≡ waiting (run ∷ self.old)) }
        ensures levels { IfSome result (λ r. length self.new + 4 * r.left ≤ 256) }
    {
        if run.count != 0 {
            return Some(run);
        }
        if self.len == 0 {
            return None;
        }
        self.len -= 1;
        // Field by field: a copy in one piece would wait for the stores of a run that was just pushed (speed).
        let top = &self.runs[self.len];
        Some(Run::new(top.slot, top.left, top.count))
    }
}

// Sets of kinds, bit k for the kind k: those without children, and those whose children are expressions only.
const LEAVES: u64 = 1 << Kind::Export as u32
    | 1 << Kind::DefaultExport as u32
    | 1 << Kind::Atom as u32
    | 1 << Kind::Identifier as u32
    | 1 << Kind::String as u32
    | 1 << Kind::Number as u32
    | 1 << Kind::Template as u32
    | 1 << Kind::Null as u32
    | 1 << Kind::VoidZero as u32
    | 1 << Kind::This as u32
    | 1 << Kind::Id as u32
    | 1 << Kind::Name as u32
    | 1 << Kind::PrivateName as u32
    | 1 << Kind::Symbols as u32;

const PLAIN_KINDS: u64 = 1 << Kind::ExpressionStatement as u32
    | 1 << Kind::Let as u32
    | 1 << Kind::Array as u32
    | 1 << Kind::Call as u32
    | 1 << Kind::Assignment as u32
    | 1 << Kind::PrivateIn as u32
    | 1 << Kind::DecorateCall as u32
    | 1 << Kind::ParameterCall as u32
    | 1 << Kind::PrototypeOf as u32
    | 1 << Kind::Other as u32
    | 1 << Kind::Decorators as u32;

// The class under a class statement with the payload. A payload is a number by the word's form; here it becomes a case of `Slot`.
fn class_under(payload: u32) -> Slot
    requires { payload < 3 }
    ensures { slot_of result ≡ class_under payload }
{
    match payload {
        0 => Slot::PlainClass,
        1 => Slot::ExportedClass,
        _ => Slot::DefaultClass,
    }
}

// The decorators of a method that is a constructor or not.
fn method_decorators(constructor: bool) -> Slot
    ensures { slot_of result ≡ method_decorators (cond constructor 1 0) }
{
    if constructor {
        Slot::ConstructorDecorators
    } else {
        Slot::Decorators
    }
}

// One of the parameters that stand in a slot.
fn parameter_of(parameters: Slot) -> Slot
    requires { (slot_of parameters).category ≡ Parameters }
    ensures { slot_of result ≡ parameter_of (slot_of parameters).context }
{
    match parameters {
        Slot::FunctionParameters => Slot::FunctionParameter,
        _ => Slot::Parameter,
    }
}

// The decorators of a parameter that stands in a slot.
fn parameter_decorators(parameter: Slot) -> Slot
    requires { (slot_of parameter).category ≡ Parameter }
    ensures { slot_of result ≡ parameter_decorators (slot_of parameter).context }
{
    match parameter {
        Slot::FunctionParameter => Slot::FunctionDecorators,
        _ => Slot::Decorators,
    }
}

// The children of a record that has some: the first run, the others below it on the stack.
fn children<const N: usize>(stack: &mut Stack<N>, slot: Slot, left: u32, w: u32) -> Run
    requires some { bit_of leaves (kind_of w) ≡ 0 }
    requires allowed { allowed (slot_of slot) (kind_of w) (payload_of w) ≡ true }
    requires room { length stack.old + 3 ≤ N }
    requires levels { length stack.old + 3 + 4 * left ≤ 256 }
    ensures places { waiting (result ∷ stack.new) ≡ places (max_depth + 1 - left) ((row_of (kind_of w)).below (slot_of slot).context (payload_of w)) ++ waiting stack.old }
    ensures levels { length stack.new + 4 * result.left ≤ 256 }
{
    if words::is_in(w, PLAIN_KINDS) {
        return Run::new(Slot::Expression, left, words::child_count(w));
    }
    let p = words::payload_of(w);
    match Kind::of(w) {
        Some(Kind::Module) => {
            stack.push(Run::new(Slot::OwnStatement, left, p));
            Run::new(Slot::Symbols, left, 1)
        }
        Some(Kind::ClassStatement) => Run::new(class_under(p), left, 1),
        Some(Kind::ClassExpression) => Run::new(Slot::ClassExpression, left, 1),
        Some(Kind::Function) => {
            stack.push(Run::new(Slot::Code, left, 1));
            Run::new(Slot::FunctionParameters, left, 1)
        }
        Some(Kind::Class) => {
            stack.push(Run::new(Slot::Body, left, 1));
            stack.push(Run::new(Slot::Expression, left, p / 4 % 2));
            stack.push(Run::new(Slot::Id, left, p % 2));
            Run::new(Slot::Decorators, left, 1)
        }
        Some(Kind::Body) => Run::new(Slot::Element, left, p),
        Some(Kind::Method) => {
            stack.push(Run::new(Slot::Code, left, p / 4 % 2));
            stack.push(Run::new(Slot::Parameters, left, 1));
            stack.push(Run::new(Slot::Key, left, 1));
            Run::new(method_decorators(p / 2 % 2 == 1), left, 1)
        }
        Some(Kind::Property) => {
            stack.push(Run::new(Slot::Expression, left, p / 2 % 2));
            stack.push(Run::new(Slot::Key, left, 1));
            Run::new(Slot::Decorators, left, 1)
        }
        Some(Kind::AbstractAccessor) => {
            stack.push(Run::new(Slot::Key, left, 1));
            Run::new(Slot::Decorators, left, 1)
        }
        Some(Kind::Parameters) => Run::new(parameter_of(slot), left, p),
        Some(Kind::Parameter) => {
            stack.push(Run::new(Slot::Expression, left, p));
            Run::new(parameter_decorators(slot), left, 1)
        }
        _ => Run::new(Slot::Statement, left, p),
    }
}

// The scan of the words with a stack of N runs, or none where it is too short: one of 256 never is. `symbols` is the number of symbols.
fn scan<const N: usize>(ws: &[u32], symbols: u32) -> Option<Result<(), Refusal>>
    requires { N ≤ 256 }
    ensures long { IsNone result → N < 256 }
    ensures scanned { IfSome result (λ r. code_of r ≡ judge symbols (top ∷ []) ws.now) }
{
    let mut stack = Stack::<N>::new();
    let mut run = Run::new(Slot::Module, grammar::MAX_DEPTH, 1);
    for w in ws {
        let Some(next) = stack.next(run) else {
            return Some(Err(Refusal::Malformed));
        };
        if let Err(refusal) = grammar::fault(symbols, next.slot, next.left, *w) {
            return Some(Err(refusal));
        }
        let rest = Run::new(next.slot, next.left, next.count - 1);
        if words::is_in(*w, LEAVES) {
            run = rest;
            continue;
        }
        if !stack.has_room() {
            return None;
        }
        stack.push(rest);
        run = children(&mut stack, next.slot, next.left - 1, *w);
    }
    match stack.next(run) {
        Some(_) => Some(Err(Refusal::Malformed)),
        None => Some(Ok(())),
    }
}

// The number of symbols that the second word says.
#[tactic(auto, using(grammar::proofs::Places::symbols_none), unfolding(grammar::specs::Scan::symbols_of))]
fn symbol_count(ws: &[u32]) -> u32
    ensures { result ≡ symbols_of ws.now }
{
    match ws.get(1) {
        Some(w) => words::payload_of(*w),
        None => 0,
    }
}

// Is the list of words a module, or which refusal of 1 to 6 is it. Not in line: the stacks are no part of a caller's frame.
#[tactic(auto, unfolding(grammar::specs::Scan::refusal))]
#[inline(never)]
pub fn validate(ws: &[u32]) -> Result<(), Refusal>
    ensures { code_of result ≡ refusal ws.now }
{
    if ws.is_empty() || grammar::MAX_WORDS < ws.len() {
        return Err(Refusal::BadLength);
    }
    let symbols = symbol_count(ws);
    // A shorter module has a shorter stack first: it is cleared sooner, and seldom too short.
    if ws.len() <= 64 {
        if let Some(answer) = scan::<32>(ws, symbols) {
            return answer;
        }
    }
    if ws.len() <= 512 {
        if let Some(answer) = scan::<96>(ws, symbols) {
            return answer;
        }
    }
    scan::<256>(ws, symbols).unwrap()
}
