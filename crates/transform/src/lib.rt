// Writes what the records of a module become (rules 1 to 10). Reads the words, writes the output, reads nothing back from it.
// The words, their notes and the output are parameters beside the walk, not fields of it: a walk is copied at each level, and calls go on from an older one,
// which a walk with a lent output couldn't be. So a walk that takes its place from one and its words from another names the fields.
// The words and the notes are two parameters: `Asks` says in one clause what a walker needs of both, and the clauses of what is written speak of the words
// alone. A symbol is a plain number, not a struct with its bound: the definitions speak of numbers, and they share `Around` and `State` with the code.
#![tactic(auto)]

ghost use Rattle.std.specs.Prelude.{◌≡◌, true, false, not, cond, [], ◌∷◌, ℕ, ◌+◌, ◌-◌, ◌<◌, ◌≤◌, eqb, length, get_or, replicate, IsSome, IsSomeAnd};
ghost use Rattle.std.specs.Int.{from_bool};
ghost use Rattle.std.specs.Option.{option_or};
ghost use Rattle.std.specs.declared.option.Option.TheVariants.{None, Some};
ghost use Rattle.words.specs.Word.{kind_of, payload_of, bit0};
ghost use Rattle.words.specs.Kinds.{number};
ghost use Rattle.words.specs.declared.kinds.Kind.TheVariants.{ClassStatement, Assignment, PrototypeOf, Identifier, Class, Body, Property, Parameters, Parameter, Null, VoidZero};
ghost use Rattle.records.specs.Forest.{take_f, count_f, size};
ghost use Rattle.records.specs.Ends.{Ends, blank};
ghost use Rattle.records.specs.Place.{records_at, label_at, arity_at, kids_at, end_of};
ghost use Rattle.output.specs.Overlay.{Wrote};
ghost use Rattle.grammar.specs.Grammar.{element, module'};
ghost use Rattle.grammar.specs.WellFormed.{Allowed, Fits};
ghost use Rattle.rewriting.specs.Parts.{plain, list, constructor, role_of, bare_parameters, indexed, of_parameters, is_decorated_member, has_plain_key, id_of, has_private_in, is_live};
ghost use Rattle.class_stack.specs.Renaming.{capacity};
ghost use Rattle.inspect.specs.Class.{count_called};
ghost use Rattle.walk_laws.specs.Still.{words_from};
ghost use Rattle.walk_laws.specs.Slots.{RowFits};
ghost use Rattle.walk_laws.specs.Kinds.{is_element_kind};
ghost use Rattle.walk_laws.specs.Members.{parameters_words};
ghost use Rattle.walk_laws.specs.Calls.{prefix_words, name_word, argument_words, entries};
ghost use Rattle.walk_laws.specs.ClassPlan.{optional, export_words, ds, class_words, queue_words, queue_count, at_body, at_end, body_at};
ghost use Rattle.counter.specs.Contract.{unlive, Planned, Below, Ready, Annotated};
ghost use Rattle.transform.specs.Nest.{nest_at};
ghost use Rattle.transform.specs.Contract.{begun, word_below, words_of, here_at, calls_at, after_at, kids_here, Asks, Moved, Emitted, Queues, behind_words, member_words, takes_key};
ghost use Rattle.transform.specs.Copies.{Copies};
ghost use Rattle.transform.specs.Plain.{is_plain};
ghost use Rattle.transform.specs.Kept.{KeptAt, StaysAt, ScopeBelow, SortAt};
ghost use Rattle.transform.specs.ClassWords.{Small, scope_of, body_word, front_of, block_of, let_words, head_of, flags_of, name_words, front_words, assign_words, elements_by, body_by, first_by, assignment_by, PlanFrom, Plans};

use class_stack::ClassStack;
use counter::Counted;
use records::Note;
use rewriting::{Around, State};
use words::Kind;

// A walk: where it stands in the words read and in the words written, the state there, and how many records were written.
#[derive(Clone, Copy)]
pub struct Walk {
    pub at: usize,
    pub pos: usize,
    pub state: State,
    pub count: u32,
}

// The kinds whose words change, but for members: bit k for the kind k.
const CHANGING: u64 = 1 << Kind::Module as u32
    | 1 << Kind::Block as u32
    | 1 << Kind::ClassStatement as u32
    | 1 << Kind::ClassExpression as u32
    | 1 << Kind::StaticBlock as u32
    | 1 << Kind::Code as u32;

// ---- words

// The word w, under the classes around.
fn put_word(c: ClassStack, w: u32, out: &mut [u32], pos: usize) -> usize
    requires { pos < 4294967296 }
    ensures { Wrote out.old pos (word_below c (kind_of w) (payload_of w) ∷ []) out.new result }
{
    output::put(out, pos, c.word(w))
}

// The word of a kind and a payload, under the classes around.
fn put(c: ClassStack, kind: Kind, p: u32, out: &mut [u32], pos: usize) -> usize
    requires { (pos < 4294967296) × (p < 67108864) }
    ensures { Wrote out.old pos (word_below c (number kind) p ∷ []) out.new result }
{
    put_word(c, words::word_of(u32::from(kind), p), out, pos)
}

// The same with the symbol p, if there is one.
fn put_optional(c: ClassStack, kind: Kind, p: Option<u32>, out: &mut [u32], pos: usize) -> usize
    requires { (pos < 4294967296) × Small p }
    ensures { Wrote out.old pos (optional (word_below c) (number kind) p) out.new result }
{
    match p {
        Some(p) => put(c, kind, p, out, pos),
        None => pos,
    }
}

// ---- records

// A module: its statements are counted again, and its word of symbols holds the next fresh symbol (rule 1). Both words are put in front last. A module
// stands at the first place alone; next is the first fresh symbol, c an empty stack.
pub fn program(ws: &[u32], notes: &[Note], next: u32, c: ClassStack, out: &mut [u32]) -> Walk
    requires { Asks ws.now notes.now 0 1 next c 0 (size (here_at ws.now 0 1 unlive (begun next))) × (0 < length ws.now) }
    ensures { Emitted ws.now 0 1 unlive (begun next) c out.old 0 0 out.new result }
{
    let w = Walk {
        at: 2,
        pos: 2,
        state: State {
            next,
            default: None,
        },
        count: 0,
    };
    let a = Around {
        live: false,
        id: None,
    };
    let r = records(ws, notes, inspect::payload_at(ws, 0) as usize, a, w, c, out);
    put(c, Kind::Symbols, r.state.next, out, 1);
    put(c, Kind::Module, r.count, out, 0);
    Walk { count: 1, ..r }
}

// What the next k records become; none of them is a module.
#[cycle(transform)]
fn records(
    ws: &[u32],
    notes: &[Note],
    k: usize,
    a: Around,
    w: Walk,
    c: ClassStack,
    out: &mut [u32],
) -> Walk
    requires { Asks ws.now notes.now w.at k w.state.next c w.pos (size (here_at ws.now w.at k a w.state)) × (w.count ≤ w.pos) × (1 ≤ w.at) }
    ensures { Emitted ws.now w.at k a w.state c out.old w.pos w.count out.new result }
{
    let mut v = w;
    for _ in 0..k {
        let at = v.at;
        if ws.len() <= at {
            return v;
        }
        let note = notes[at];
        if note.still {
            let e = note.end as usize;
            v.pos = copied(ws, at, e, c, out, v.pos);
            v.at = e;
            v.count += 1;
            continue;
        }
        v = record(ws, notes, a, v, c, out);
    }
    v
}

// A record that isn't copied. In line in its two callers, the loops: a level of depth takes one frame fewer.
#[cycle(transform)]
#[inline(always)]
fn record(ws: &[u32], notes: &[Note], a: Around, w: Walk, c: ClassStack, out: &mut [u32]) -> Walk
    requires { Asks ws.now notes.now w.at 1 w.state.next c w.pos (size (here_at ws.now w.at 1 a w.state)) × (w.count ≤ w.pos) × (w.at < length ws.now) × (1 ≤ w.at) }
    ensures { Emitted ws.now w.at 1 a w.state c out.old w.pos w.count out.new result }
{
    match sort_at(ws, notes, w.at) {
        Sort::List => list(ws, notes, a, w, c, out),
        Sort::Class => class(ws, notes, a, w, c, out),
        Sort::Live => statement(ws, notes, a, w, c, out),
        Sort::Member => member(ws, notes, a, w, c, out),
        Sort::Kept => kept(ws, notes, a, w, c, out),
    }
}

// What becomes of a record.
#[derive(Clone, Copy)]
pub enum Sort {
    // a list of statements: it is counted again
    List,
    // a class expression, or a class statement whose class is declare or plain: it stays, and what stands in it is visited anew
    Class,
    // a class statement whose class is live and has decorators
    Live,
    // a decorated member
    Member,
    // any other record: its word stays as it is
    Kept,
}

// What becomes of the record at `at`, which is no module.
fn sort_at(ws: &[u32], notes: &[Note], at: usize) -> Sort
    requires { Planned ws.now notes.now × Fits (module' ∷ []) (records_at ws.now 0) × (at < length ws.now) × (1 ≤ at) }
    ensures { SortAt ws.now at result }
{
    match inspect::kind_at(ws, at) {
        Some(Kind::Block | Kind::StaticBlock | Kind::Code) => Sort::List,
        Some(Kind::ClassStatement) if inspect::is_live(ws, at + 1) && !is_plain(ws, notes, at) => {
            Sort::Live
        }
        Some(Kind::ClassStatement | Kind::ClassExpression) => Sort::Class,
        Some(Kind::Method | Kind::Property | Kind::AbstractAccessor) if notes[at].marked => {
            Sort::Member
        }
        _ => Sort::Kept,
    }
}

// A record in which nothing changes, and which ends at e: its words under the classes around.
fn copied(ws: &[u32], at: usize, e: usize, c: ClassStack, out: &mut [u32], pos: usize) -> usize
    requires { Copies ws.now at e c pos }
    ensures { Wrote out.old pos (words_from (word_below c) ws.now at (e - at)) out.new result }
{
    let mut p = pos;
    for &w in &ws[at..e] {
        p = put_word(c, w, out, p);
    }
    p
}

// A record whose word stays as it is, and what stands in it. The records in one that stays follow its word, so that one loop writes them, down to
// those that are copied and those that change.
#[cycle(transform)]
fn kept(ws: &[u32], notes: &[Note], a: Around, w: Walk, c: ClassStack, out: &mut [u32]) -> Walk
    requires { Asks ws.now notes.now w.at 1 w.state.next c w.pos (size (here_at ws.now w.at 1 a w.state)) × (w.count ≤ w.pos) × KeptAt ws.now w.at }
    ensures { Emitted ws.now w.at 1 a w.state c out.old w.pos w.count out.new result }
{
    let mut k = inspect::children_at(ws, w.at);
    let mut v = w;
    v.pos = put_word(c, inspect::word_at(ws, w.at), out, w.pos);
    v.at += 1;
    // Not a `for`: a record that stays adds those in it to the ones that are left.
    while k != 0 {
        let at = v.at;
        if ws.len() <= at {
            return Walk {
                count: w.count + 1,
                ..v
            };
        }
        let noted = notes[at];
        if noted.still {
            let e = noted.end as usize;
            v.pos = copied(ws, at, e, c, out, v.pos);
            v.at = e;
            k -= 1;
            continue;
        }
        if is_kept(ws, notes, at) {
            v.pos = put_word(c, inspect::word_at(ws, at), out, v.pos);
            k = k - 1 + inspect::children_at(ws, at);
            v.at += 1;
            continue;
        }
        v = record(ws, notes, a, v, c, out);
        k -= 1;
    }
    Walk {
        count: w.count + 1,
        ..v
    }
}

// Does the word of the record at `at` stay as it is? So does a member's that isn't decorated.
fn is_kept(ws: &[u32], notes: &[Note], at: usize) -> bool
    requires { Planned ws.now notes.now × Fits (module' ∷ []) (records_at ws.now 0) × (at < length ws.now) }
    ensures { result ≡ true → KeptAt ws.now at }
{
    !words::is_in(inspect::word_at(ws, at), CHANGING) && !notes[at].marked
}

// A list of statements, counted again: its word is put in front last.
#[cycle(transform)]
fn list(ws: &[u32], notes: &[Note], a: Around, w: Walk, c: ClassStack, out: &mut [u32]) -> Walk
    requires { Asks ws.now notes.now w.at 1 w.state.next c w.pos (size (here_at ws.now w.at 1 a w.state)) × (w.count ≤ w.pos) × (w.at < length ws.now) × (role_of (label_at ws.now w.at) ≡ list) }
    ensures { Emitted ws.now w.at 1 a w.state c out.old w.pos w.count out.new result }
{
    let v = Walk {
        at: w.at + 1,
        pos: w.pos + 1,
        count: 0,
        ..w
    };
    let r = records(ws, notes, inspect::children_at(ws, w.at), a, v, c, out);
    let counted = words::word_of(words::kind_of(inspect::word_at(ws, w.at)), r.count);
    put_word(c, counted, out, w.pos);
    Walk {
        count: w.count + 1,
        ..r
    }
}

// A class expression, or a class statement that stays one: its class is declare, or plain.
#[cycle(transform)]
fn class(ws: &[u32], notes: &[Note], a: Around, w: Walk, c: ClassStack, out: &mut [u32]) -> Walk
    requires { Asks ws.now notes.now w.at 1 w.state.next c w.pos (size (here_at ws.now w.at 1 a w.state)) × (w.count ≤ w.pos) × (w.at < length ws.now) × StaysAt ws.now w.at }
    ensures { Emitted ws.now w.at 1 a w.state c out.old w.pos w.count out.new result }
{
    let pos = put_word(c, inspect::word_at(ws, w.at), out, w.pos);
    let v = Walk {
        at: w.at + 1,
        pos,
        state: State {
            next: w.state.next,
            default: None,
        },
        count: 0,
    };
    let r = kept(ws, notes, scope_below(ws, notes, w.at), v, c, out);
    Walk {
        state: State {
            next: r.state.next,
            default: w.state.default,
        },
        count: w.count + 1,
        ..r
    }
}

// The class below the class expression or statement at `at`, as the class around what stands in it.
fn scope_below(ws: &[u32], notes: &[Note], at: usize) -> Around
    requires { Ends ws.now notes.now 0 × (at < length ws.now) × (at < 4294967296) }
    ensures { ScopeBelow ws.now at result }
{
    if inspect::is_kind_at(ws, at, Kind::ClassExpression) {
        return Around {
            live: false,
            id: None,
        };
    }
    Around {
        live: inspect::is_live(ws, at + 1),
        id: inspect::class_id(ws, notes, at + 1),
    }
}

// Is neither the class of the statement at `at` decorated, nor a member of it?
fn is_plain(ws: &[u32], notes: &[Note], at: usize) -> bool
    requires { Planned ws.now notes.now × Fits (module' ∷ []) (records_at ws.now 0) × (at < length ws.now) × ((label_at ws.now at).kind ≡ number ClassStatement) }
    ensures { result ≡ is_plain (kids_at ws.now (at + 1)) }
{
    !notes[at + 1].marked && !notes[inspect::class_body(ws, notes, at + 1)].marked
}

// ---- members (rules 2 to 5)

// What stays of a member, or of a constructor that gives up its decorators: the key and what stands behind it, the parameters without decorators.
#[cycle(transform)]
fn member(ws: &[u32], notes: &[Note], a: Around, w: Walk, c: ClassStack, out: &mut [u32]) -> Walk
    requires { Asks ws.now notes.now w.at 1 w.state.next c w.pos (length (member_words ws.now w.at a w.state c)) × (w.count ≤ w.pos) × (w.at < length ws.now) × (is_element_kind (label_at ws.now w.at).kind ≡ true) }
    ensures { Moved (member_words ws.now w.at a w.state c) (end_of ws.now w.at 1) (after_at ws.now w.at 1 a w.state) out.old w.pos out.new result × (result.count ≡ w.count + 1) }
{
    let n = inspect::children_at(ws, w.at);
    let whole = counter::count_record(ws, notes, w.at, a, w.state);
    let p1 = put_word(c, inspect::word_at(ws, w.at), out, w.pos);
    let p2 = put(c, Kind::Decorators, 0, out, p1);
    let p3 = key_assignment(ws, notes, w.at, a, whole.state.next, c, out, p2);
    let d = counter::count_record(ws, notes, w.at + 1, a, w.state);
    let v = Walk {
        at: d.at,
        pos: p3,
        state: d.state,
        count: 0,
    };
    if !inspect::is_kind_at(ws, w.at, Kind::Method) {
        let r = records(ws, notes, n - 1, a, v, c, out);
        return Walk {
            at: whole.at,
            pos: r.pos,
            state: whole.state,
            count: w.count + 1,
        };
    }
    let key = records(ws, notes, 1, a, v, c, out);
    let q = parameters(ws, notes, a, key, c, out);
    let u = Walk { count: 0, ..q };
    let r = records(ws, notes, n - 3, a, u, c, out);
    Walk {
        at: whole.at,
        pos: r.pos,
        state: whole.state,
        count: w.count + 1,
    }
}

// Rule 5: the assignment to the symbol of a computed key; it was the last one taken before `next`.
fn key_assignment(
    ws: &[u32],
    notes: &[Note],
    at: usize,
    a: Around,
    next: u32,
    c: ClassStack,
    out: &mut [u32],
    pos: usize,
) -> usize
    requires { (pos < 4294967296) × (next ≤ 67108864) × (takes_key ws.now at a ≡ true → 1 ≤ next) × Planned ws.now notes.now × (at < length ws.now) × (is_element_kind (label_at ws.now at).kind ≡ true) × (at < 67108864) }
    ensures { Wrote out.old pos (cond (takes_key ws.now at a) (word_below c (number Assignment) (next - 1) ∷ []) []) out.new result }
{
    if !a.live || !notes[at].marked || inspect::plain_key(ws, notes, at) {
        return pos;
    }
    put(c, Kind::Assignment, next - 1, out, pos)
}

// The parameters of a method, which lose their decorators.
#[cycle(transform)]
fn parameters(
    ws: &[u32],
    notes: &[Note],
    a: Around,
    w: Walk,
    c: ClassStack,
    out: &mut [u32],
) -> Walk
    requires { Asks ws.now notes.now w.at 1 w.state.next c w.pos (length (parameters_words (word_below c) ws.now a w.at w.state)) × (w.at < length ws.now) × ((label_at ws.now w.at).kind ≡ number Parameters) }
    ensures { Moved (parameters_words (word_below c) ws.now a w.at w.state) (end_of ws.now w.at 1) (after_at ws.now w.at 1 a w.state) out.old w.pos out.new result }
{
    let k = inspect::children_at(ws, w.at);
    let mut v = w;
    v.pos = put(
        c,
        Kind::Parameters,
        inspect::payload_at(ws, w.at),
        out,
        w.pos,
    );
    v.at += 1;
    for _ in 0..k {
        let n = inspect::children_at(ws, v.at);
        let d = counter::count_record(ws, notes, v.at + 1, a, v.state);
        let p1 = put(
            c,
            Kind::Parameter,
            inspect::payload_at(ws, v.at),
            out,
            v.pos,
        );
        let p2 = put(c, Kind::Decorators, 0, out, p1);
        let u = Walk {
            at: d.at,
            pos: p2,
            state: d.state,
            count: 0,
        };
        v = records(ws, notes, n - 1, a, u, c, out);
    }
    v
}

// ---- calls (rules 3 to 5)

// The calls that the next k elements queue: of each that is a decorated member.
#[cycle(transform)]
fn calls(
    ws: &[u32],
    notes: &[Note],
    k: usize,
    a: Around,
    w: Walk,
    c: ClassStack,
    out: &mut [u32],
) -> Walk
    requires { Asks ws.now notes.now w.at k w.state.next c w.pos (size (calls_at ws.now w.at k a w.state)) × (w.count ≤ w.pos) × RowFits ws.now w.at k (replicate k element) × (a.live ≡ true) × Below w.state.next a.id × Below w.state.next w.state.default }
    ensures { Queues ws.now w.at k a w.state c out.old w.pos w.count out.new result }
{
    let mut v = w;
    for _ in 0..k {
        let at = v.at;
        let r = counter::count_record(ws, notes, at, a, v.state);
        if !notes[at].marked {
            v = Walk {
                at: r.at,
                state: r.state,
                ..v
            };
            continue;
        }
        let p1 = put(c, Kind::ExpressionStatement, 0, out, v.pos);
        let p2 = put(c, Kind::DecorateCall, 4, out, p1);
        let u = Walk {
            pos: p2 + 1,
            count: 0,
            ..v
        };
        let e = entries(ws, notes, a, u, c, out);
        put(c, Kind::Array, e.count, out, p2);
        v = Walk {
            at: r.at,
            pos: arguments(ws, notes, at, a, r.state, c, out, e.pos),
            state: r.state,
            count: v.count + 1,
        };
    }
    v
}

// Prefix, name and descriptor of a call; s is the state behind the member.
fn arguments(
    ws: &[u32],
    notes: &[Note],
    at: usize,
    a: Around,
    s: State,
    c: ClassStack,
    out: &mut [u32],
    pos: usize,
) -> usize
    requires { (pos + 4 < 4294967296) × (at < 4294967296) × IsSomeAnd (option_or a.id s.default) (λ c. c < 67108864) × (s.next ≤ 67108864) × (has_plain_key (kids_at ws.now at) ≡ false → 1 ≤ s.next) × Ends ws.now notes.now 0 }
    ensures { Wrote out.old pos (argument_words (word_below c) ws.now a at s) out.new result }
{
    let p1 = get_class_member_prefix(
        inspect::payload_at(ws, at),
        a.id.or(s.default).unwrap(),
        c,
        out,
        pos,
    );
    let p2 = get_name_of_property_key(ws, notes, at, s.next, c, out, p1);
    put(c, descriptor(inspect::word_at(ws, at)), 0, out, p2)
}

// Rule 3: "Descriptor is 14 for a property, 13 for a method or accessor".
fn descriptor(w: u32) -> Kind
    ensures { number result ≡ cond (eqb (kind_of w) (number Property)) (number VoidZero) (number Null) }
{
    if words::is_kind(w, Kind::Property) {
        Kind::VoidZero
    } else {
        Kind::Null
    }
}

// Rule 3: the class's symbol, or its prototype.
fn get_class_member_prefix(
    flags: u32,
    symbol: u32,
    c: ClassStack,
    out: &mut [u32],
    pos: usize,
) -> usize
    requires { (pos + 2 < 4294967296) × (symbol < 67108864) }
    ensures { Wrote out.old pos (prefix_words (word_below c) (eqb (bit0 flags) 1) symbol) out.new result }
{
    if flags % 2 == 1 {
        return put(c, Kind::Identifier, symbol, out, pos);
    }
    create_prototype_member(symbol, c, out, pos)
}

fn create_prototype_member(symbol: u32, c: ClassStack, out: &mut [u32], pos: usize) -> usize
    requires { (pos + 2 < 4294967296) × (symbol < 67108864) }
    ensures { Wrote out.old pos (word_below c (number PrototypeOf) 0 ∷ word_below c (number Identifier) symbol ∷ []) out.new result }
{
    let p = put(c, Kind::PrototypeOf, 0, out, pos);
    put(c, Kind::Identifier, symbol, out, p)
}

// Rule 5: the name of the member at `at`; next is the counter behind the member.
fn get_name_of_property_key(
    ws: &[u32],
    notes: &[Note],
    at: usize,
    next: u32,
    c: ClassStack,
    out: &mut [u32],
    pos: usize,
) -> usize
    requires { (pos < 4294967296) × (at < 4294967296) × (next ≤ 67108864) × (has_plain_key (kids_at ws.now at) ≡ false → 1 ≤ next) × Ends ws.now notes.now 0 }
    ensures { Wrote out.old pos (name_word (word_below c) (label_at ws.now (end_of ws.now (at + 1) 1)) (has_plain_key (kids_at ws.now at)) (next - 1) ∷ []) out.new result }
{
    let q = records::behind(ws, notes, at + 1, 1);
    let w = inspect::word_at(ws, q);
    if words::is_kind(w, Kind::Name) {
        return put(c, Kind::String, words::payload_of(w), out, pos);
    }
    if words::is_kind(w, Kind::PrivateName) {
        return put(c, Kind::String, 0, out, pos);
    }
    if inspect::plain_key(ws, notes, at) {
        return put_word(c, w, out, pos);
    }
    put(c, Kind::Identifier, next - 1, out, pos)
}

// The decorators of the member where the walk stands, then its parameters': the entries of its array.
#[cycle(transform)]
fn entries(ws: &[u32], notes: &[Note], a: Around, w: Walk, c: ClassStack, out: &mut [u32]) -> Walk
    requires { Asks ws.now notes.now w.at 1 w.state.next c w.pos (size (entries (word_below c) ws.now a w.at w.state)) × (w.count ≤ w.pos) × (w.at < length ws.now) × Allowed element (label_at ws.now w.at) × (is_decorated_member (label_at ws.now w.at) (kids_at ws.now w.at) ≡ true) }
    ensures { Wrote out.old w.pos (words_of c (entries (word_below c) ws.now a w.at w.state)) out.new result.pos × (result.count ≡ w.count + count_f (entries (word_below c) ws.now a w.at w.state)) }
{
    let v = Walk { at: w.at + 2, ..w };
    let own = records(ws, notes, inspect::children_at(ws, w.at + 1), a, v, c, out);
    if !inspect::is_kind_at(ws, w.at, Kind::Method) {
        return own;
    }
    let key = counter::count_records(ws, notes, w.at + 1, 2, a, w.state);
    let p = Walk {
        at: key.at,
        state: key.state,
        ..own
    };
    transform_decorators_of_parameters(ws, notes, a, p, c, out)
}

// The decorators of the parameters where the walk stands, each under a parameter call with its parameter's index.
#[cycle(transform)]
fn transform_decorators_of_parameters(
    ws: &[u32],
    notes: &[Note],
    a: Around,
    w: Walk,
    c: ClassStack,
    out: &mut [u32],
) -> Walk
    requires { Asks ws.now notes.now w.at 1 w.state.next c w.pos (size (of_parameters 0 (kids_here ws.now w.at a w.state))) × (w.count ≤ w.pos) × (w.at < length ws.now) × ((label_at ws.now w.at).kind ≡ number Parameters) }
    ensures { Wrote out.old w.pos (words_of c (of_parameters 0 (kids_here ws.now w.at a w.state))) out.new result.pos × (result.count ≡ w.count + count_f (of_parameters 0 (kids_here ws.now w.at a w.state))) }
{
    let k = inspect::children_at(ws, w.at);
    let mut v = w;
    v.at += 1;
    for i in 0..k {
        v = indexed(ws, notes, i as u32, a, v, c, out);
    }
    v
}

// The decorators of the parameter where the walk stands, each under a parameter call with the index j; the state is then the one behind the parameter.
#[cycle(transform)]
fn indexed(
    ws: &[u32],
    notes: &[Note],
    j: u32,
    a: Around,
    w: Walk,
    c: ClassStack,
    out: &mut [u32],
) -> Walk
    requires { Asks ws.now notes.now w.at 1 w.state.next c w.pos (size (indexed j (here_at ws.now (w.at + 2) (arity_at ws.now (w.at + 1)) a w.state))) × (w.count ≤ w.pos) × (w.at < length ws.now) × ((label_at ws.now w.at).kind ≡ number Parameter) × (j < 67108864) }
    ensures { Moved (words_of c (indexed j (here_at ws.now (w.at + 2) (arity_at ws.now (w.at + 1)) a w.state))) (end_of ws.now w.at 1) (after_at ws.now w.at 1 a w.state) out.old w.pos out.new result × (result.count ≡ w.count + count_f (indexed j (here_at ws.now (w.at + 2) (arity_at ws.now (w.at + 1)) a w.state))) }
{
    let whole = counter::count_record(ws, notes, w.at, a, w.state);
    let k = inspect::children_at(ws, w.at + 1);
    let mut v = w;
    v.at += 2;
    for _ in 0..k {
        v.pos = put(c, Kind::ParameterCall, j, out, v.pos);
        v = records(ws, notes, 1, a, v, c, out);
    }
    Walk {
        at: whole.at,
        state: whole.state,
        ..v
    }
}

// ---- classes (rules 6 to 10)

// What a live class is to have.
#[derive(Clone, Copy)]
pub struct ClassPlan {
    // the symbol of its id as read
    pub id: Option<u32>,
    // its symbol in let, assignment and export, if it is decorated
    pub outer: Option<u32>,
    // the symbol of its id word, if it is to have one
    pub inner: Option<u32>,
    pub alias: Option<u32>,
    pub private: bool,
    // has its body a static property or static block
    pub fixed: bool,
    pub calls: u32,
}

// The class of the statement at `at`; s is the state behind the class's children.
fn plan(ws: &[u32], notes: &[Note], at: usize, s: State) -> ClassPlan
    requires { (length ws.now ≤ 4096) × (at < length ws.now) × Planned ws.now notes.now × (s.next + 1 < 67108864) × Small s.default × (at + 1 < length ws.now) × ((label_at ws.now (at + 1)).kind ≡ number Class) × Fits (module' ∷ []) (records_at ws.now 0) }
    ensures { PlanFrom ws.now notes.now at s result }
{
    let id = inspect::class_id(ws, notes, at + 1);
    let private = private_at(ws, notes, at + 1);
    let b = inspect::class_body(ws, notes, at + 1);
    let g = ClassPlan {
        id,
        outer: None,
        inner: id.or(s.default),
        alias: None,
        private,
        fixed: inspect::children(ws, notes, b).has_static(),
        calls: call_count_at(ws, notes, b, private),
    };
    if !notes[at + 1].marked {
        return g;
    }
    match id {
        Some(_) => ClassPlan {
            outer: id,
            inner: Some(s.next),
            alias: alias_of(notes, at, s.next),
            ..g
        },
        None => ClassPlan {
            outer: s.default.or(Some(s.next)),
            inner: None,
            ..g
        },
    }
}

// Rule 9: has the class at `at` a private-in test in a decorator? The mark of place 1 says whether the module may have one.
fn private_at(ws: &[u32], notes: &[Note], at: usize) -> bool
    requires { Planned ws.now notes.now × (1 < length ws.now) }
    ensures { result ≡ has_private_in (kids_at ws.now at) }
{
    notes[1].marked && inspect::has_private_in_expression(ws, notes, at)
}

// The number of decorated members in the body at b, or 0 past the end, where rule 9's block asks for it. The body's mark says whether there is one.
fn call_count_at(ws: &[u32], notes: &[Note], b: usize, private: bool) -> u32
    requires { (length ws.now ≤ 4096) × Planned ws.now notes.now × (b < length ws.now → (label_at ws.now b).kind ≡ number Body) }
    ensures { private ≡ true → result ≡ count_called (kids_at ws.now b) }
{
    if !private || ws.len() <= b || !notes[b].marked {
        return 0;
    }
    inspect::children(ws, notes, b).call_count() as u32
}

// The alias of the class of the statement at `at`, whose inner symbol is n.
fn alias_of(notes: &[Note], at: usize, n: u32) -> Option<u32>
    requires { (at < length notes.now) × (n + 1 < 67108864) }
    ensures { result ≡ cond (get_or notes.now at blank).marked (Some (n + 1)) None }
{
    if notes[at].marked {
        return Some(n + 1);
    }
    None
}

// A class statement whose class is live, and rewritten. Apart, as `queue` is: the loops' frames stay small, and records nest 64 deep.
#[cycle(transform)]
#[inline(never)]
fn statement(ws: &[u32], notes: &[Note], a: Around, w: Walk, c: ClassStack, out: &mut [u32]) -> Walk
    requires { Asks ws.now notes.now w.at 1 w.state.next c w.pos (size (here_at ws.now w.at 1 a w.state)) × (w.count ≤ w.pos) × (w.at < length ws.now) × ((label_at ws.now w.at).kind ≡ number ClassStatement) × (is_live (take_f 1 (records_at ws.now (w.at + 1))) ≡ true) }
    ensures { Emitted ws.now w.at 1 a w.state c out.old w.pos w.count out.new result }
{
    let whole = counter::count_record(ws, notes, w.at, a, w.state);
    let n = w.state.next;
    let g = plan_at(ws, notes, w.at, n);
    let p1 = class_head(inspect::payload_at(ws, w.at), g, c, out, w.pos);
    let p2 = transform_class(ws, notes, w.at, g, n, c, out, p1);
    let l = p2.min(out.len());
    let e = queue(ws, notes, w.at, g, n, c, &mut out[l..]);
    Walk {
        at: whole.at,
        pos: p2 + e.pos,
        state: whole.state,
        count: w.count + 1 + e.count,
    }
}

// The plan of the class of the statement at `at`; n is the counter in front of it.
fn plan_at(ws: &[u32], notes: &[Note], at: usize, n: u32) -> ClassPlan
    requires { Ready ws.now notes.now at n × (at < length ws.now) × ((label_at ws.now at).kind ≡ number ClassStatement) × (is_live (take_f 1 (records_at ws.now (at + 1))) ≡ true) × Annotated ws.now notes.now at }
    ensures { Plans ws.now at n result }
{
    let id = inspect::class_id(ws, notes, at + 1);
    if id.is_some() {
        let next = next_behind(ws, notes, at, id, n);
        return plan(
            ws,
            notes,
            at,
            State {
                next,
                default: None,
            },
        );
    }
    let r = counter::count_records(
        ws,
        notes,
        at + 1,
        1,
        Around { live: true, id },
        State {
            next: n,
            default: None,
        },
    );
    plan(ws, notes, at, r.state)
}

// The next fresh symbol behind the children of the same class, where it has the id `id`: the statement's note counts its symbols, rule 6's included.
fn next_behind(ws: &[u32], notes: &[Note], at: usize, id: Option<u32>, n: u32) -> u32
    requires { Ready ws.now notes.now at n × (at < length ws.now) × ((label_at ws.now at).kind ≡ number ClassStatement) × (is_live (take_f 1 (records_at ws.now (at + 1))) ≡ true) × Annotated ws.now notes.now at × (id ≡ id_of (kids_at ws.now (at + 1))) × IsSome id }
    ensures { result ≡ (at_end ws.now at n).next }
{
    n + notes[at].count as u32 - counter::class_count(ws, notes, at, id, None)
}

// The words in front of the class (rules 8 and 9); p is the payload of the statement.
fn class_head(p: u32, g: ClassPlan, c: ClassStack, out: &mut [u32], pos: usize) -> usize
    requires { (pos + 3 < 4294967296) × (p < 67108864) × Small g.alias × Small g.outer }
    ensures { Wrote out.old pos (head_of g c p) out.new result }
{
    match g.outer {
        Some(outer) if !g.private => let_head(outer, g, c, out, pos),
        _ => put(c, Kind::ClassStatement, p, out, pos),
    }
}

// Rule 8: "5:C, (18:alias,) 20".
fn let_head(outer: u32, g: ClassPlan, c: ClassStack, out: &mut [u32], pos: usize) -> usize
    requires { (pos + 3 < 4294967296) × Small g.alias × (outer < 67108864) }
    ensures { Wrote out.old pos (let_words g c outer) out.new result }
{
    let p1 = put(c, Kind::Let, outer, out, pos);
    if g.fixed {
        return put(c, Kind::ClassExpression, 0, out, p1);
    }
    let p2 = put_optional(c, Kind::Assignment, g.alias, out, p1);
    put(c, Kind::ClassExpression, 0, out, p2)
}

// The class of the statement at `at` as it stays; n is the counter in front of it.
#[cycle(transform)]
fn transform_class(
    ws: &[u32],
    notes: &[Note],
    at: usize,
    g: ClassPlan,
    n: u32,
    c: ClassStack,
    out: &mut [u32],
    pos: usize,
) -> usize
    requires { Asks ws.now notes.now at 1 n c pos (length (class_words ws.now at n (word_below c))) × (at < length ws.now) × ((label_at ws.now at).kind ≡ number ClassStatement) × (is_live (take_f 1 (records_at ws.now (at + 1))) ≡ true) × Plans ws.now at n g }
    ensures { Wrote out.old pos (class_words ws.now at n (word_below c)) out.new result }
{
    let a = Around {
        live: true,
        id: g.id,
    };
    let p = inspect::payload_at(ws, at + 1);
    let p1 = class_words(g, p, c, out, pos);
    let own = counter::count_records(
        ws,
        notes,
        at + 2,
        1 + (p % 2) as usize,
        a,
        State {
            next: n,
            default: None,
        },
    );
    let v = Walk {
        at: own.at,
        pos: p1,
        state: own.state,
        count: 0,
    };
    let h = records(ws, notes, (p / 4 % 2) as usize, a, v, c, out);
    class_body(ws, notes, g, h, c, out)
}

// A class with the flags p: its word, its emptied decorators, its id.
fn class_words(g: ClassPlan, p: u32, c: ClassStack, out: &mut [u32], pos: usize) -> usize
    requires { (pos + 3 < 4294967296) × (p + 1 < 67108864) × Small g.inner }
    ensures { Wrote out.old pos (name_words g c p) out.new result }
{
    let p1 = put(c, Kind::Class, class_flags(g, p), out, pos);
    let p2 = put(c, Kind::Decorators, 0, out, p1);
    put_optional(c, Kind::Id, g.inner, out, p2)
}

// Rule 10: a nameless class that is to have an id has one flag more.
fn class_flags(g: ClassPlan, p: u32) -> u32
    requires { p + 1 < 67108864 }
    ensures { (result ≡ flags_of g p) × (result < 67108864) }
{
    p + u32::from(g.id.is_none() && g.inner.is_some())
}

// The body where the walk stands.
#[cycle(transform)]
fn class_body(
    ws: &[u32],
    notes: &[Note],
    g: ClassPlan,
    w: Walk,
    c: ClassStack,
    out: &mut [u32],
) -> usize
    requires { Asks ws.now notes.now w.at 1 w.state.next c w.pos (length (body_by g c ws.now w.at w.state)) × (w.at < length ws.now) × ((label_at ws.now w.at).kind ≡ number Body) × (c.depth + 1 + nest_at ws.now w.at 1 ≤ capacity) × Small g.alias × Small g.outer × (g.private ≡ true → g.calls ≡ count_f (calls_at ws.now (w.at + 1) (arity_at ws.now w.at) (scope_of g) w.state)) × Below w.state.next g.id × Below w.state.next w.state.default }
    ensures { Wrote out.old w.pos (body_by g c ws.now w.at w.state) out.new result }
{
    let k = inspect::children_at(ws, w.at);
    let block = has_block(g);
    let n = k as u32 + u32::from(has_front(g)) + u32::from(block);
    let p1 = put(c, Kind::Body, n, out, w.pos);
    let p2 = alias_block(g, c, out, p1);
    let inner = body_stack(g, c);
    let p3 = elements(ws, notes, g, Walk { pos: p2, ..w }, inner, out);
    if !block {
        return p3;
    }
    let p4 = put(c, Kind::StaticBlock, g.calls, out, p3);
    let a = Around {
        live: true,
        id: g.id,
    };
    let v = Walk {
        at: w.at + 1,
        pos: p4,
        state: w.state,
        count: 0,
    };
    calls(ws, notes, k, a, v, c, out).pos
}

// Rule 8: is there a block in front of the elements?
fn has_front(g: ClassPlan) -> bool
    ensures { result ≡ front_of g }
{
    g.alias.is_some() && g.fixed
}

// Rule 9: is there a block behind the elements?
fn has_block(g: ClassPlan) -> bool
    ensures { result ≡ block_of g }
{
    g.private && (g.outer.is_some() || g.calls != 0)
}

// Rule 6: in the body the class's symbol is its alias.
fn body_stack(g: ClassPlan, c: ClassStack) -> ClassStack
    requires { (c.depth < capacity) × Small g.alias × Small g.outer }
    ensures { (result.depth ≤ c.depth + 1) × ((k p : ℕ) → body_word g c k p ≡ word_below result k p) }
{
    match (g.outer, g.alias) {
        (Some(outer), Some(alias)) => c.push(outer, alias),
        _ => c,
    }
}

// Rule 8: "33:1, 2, 18:alias, 15 in front".
fn alias_block(g: ClassPlan, c: ClassStack, out: &mut [u32], pos: usize) -> usize
    requires { (pos + 4 < 4294967296) × Small g.alias }
    ensures { Wrote out.old pos (front_words g c) out.new result }
{
    match g.alias {
        Some(alias) if g.fixed => {
            let p1 = put(c, Kind::StaticBlock, 1, out, pos);
            let p2 = put(c, Kind::ExpressionStatement, 0, out, p1);
            let p3 = put(c, Kind::Assignment, alias, out, p2);
            put(c, Kind::This, 0, out, p3)
        }
        _ => pos,
    }
}

// The elements of the body where the walk stands; those of a decorated class with the first constructor's decorators gone (rule 7).
#[cycle(transform)]
fn elements(
    ws: &[u32],
    notes: &[Note],
    g: ClassPlan,
    w: Walk,
    c: ClassStack,
    out: &mut [u32],
) -> usize
    requires { Asks ws.now notes.now w.at 1 w.state.next c w.pos (length (elements_by g c ws.now w.at w.state)) × (w.at < length ws.now) × ((label_at ws.now w.at).kind ≡ number Body) }
    ensures { Wrote out.old w.pos (elements_by g c ws.now w.at w.state) out.new result }
{
    let a = Around {
        live: true,
        id: g.id,
    };
    let k = inspect::children_at(ws, w.at);
    let v = Walk {
        at: w.at + 1,
        count: 0,
        ..w
    };
    if g.outer.is_none() {
        return records(ws, notes, k, a, v, c, out).pos;
    }
    let j = inspect::children(ws, notes, w.at).first_constructor();
    if k <= j {
        return records(ws, notes, k, a, v, c, out).pos;
    }
    let f = records(ws, notes, j, a, v, c, out);
    let m = member(ws, notes, a, f, c, out);
    records(ws, notes, k - j - 1, a, m, c, out).pos
}

// What a queue has: how many statements, and where they end.
#[derive(Clone, Copy)]
pub struct Queued {
    pub pos: usize,
    pub count: u32,
}

// Rule 10: what stands behind the statement at `at`, from the start of its part of the output; n is the counter in front of the class.
#[cycle(transform)]
#[inline(never)]
fn queue(
    ws: &[u32],
    notes: &[Note],
    at: usize,
    g: ClassPlan,
    n: u32,
    c: ClassStack,
    out: &mut [u32],
) -> Queued
    requires { Asks ws.now notes.now at 1 n c 0 (length (queue_words ws.now at n (word_below c))) × (at < length ws.now) × ((label_at ws.now at).kind ≡ number ClassStatement) × (is_live (take_f 1 (records_at ws.now (at + 1))) ≡ true) × Plans ws.now at n g }
    ensures { Wrote out.old 0 (queue_words ws.now at n (word_below c)) out.new result.pos × (result.count ≡ queue_count ws.now at n) }
{
    if g.private {
        return Queued { pos: 0, count: 0 };
    }
    let a = Around {
        live: true,
        id: g.id,
    };
    let own = counter::count_records(
        ws,
        notes,
        at + 2,
        inspect::children_at(ws, at + 1) - 1,
        a,
        State {
            next: n,
            default: None,
        },
    );
    let v = Walk {
        at: own.at + 1,
        pos: 0,
        state: own.state,
        count: 0,
    };
    let r = calls(ws, notes, inspect::children_at(ws, own.at), a, v, c, out);
    let Some(outer) = g.outer else {
        return Queued {
            pos: r.pos,
            count: r.count,
        };
    };
    let p = create_assignment(ws, notes, at, own, g, outer, n, c, out, r.pos);
    let x = inspect::payload_at(ws, at);
    Queued {
        pos: create_export(x, outer, c, out, p),
        count: r.count + 1 + u32::from(x != 0),
    }
}

// Rule 10: "6:C for export or 7:C for default", by the payload x of the statement: a number and no enum, since the word's form has it as a number.
fn create_export(x: u32, symbol: u32, c: ClassStack, out: &mut [u32], pos: usize) -> usize
    requires { (pos < 4294967296) × (symbol < 67108864) }
    ensures { Wrote out.old pos (export_words (word_below c) x symbol) out.new result }
{
    match x {
        0 => pos,
        1 => put(c, Kind::Export, symbol, out, pos),
        _ => put(c, Kind::DefaultExport, symbol, out, pos),
    }
}

// Rule 7: the class assignment of the statement at `at`; b is the place of the body and the state in front of it, n the counter in front of the class.
#[cycle(transform)]
fn create_assignment(
    ws: &[u32],
    notes: &[Note],
    at: usize,
    b: Counted,
    g: ClassPlan,
    outer: u32,
    n: u32,
    c: ClassStack,
    out: &mut [u32],
    pos: usize,
) -> usize
    requires { Asks ws.now notes.now at 1 n c pos (length (assignment_by g c outer ws.now (ds ws.now at n) b.at b.state)) × (at < length ws.now) × ((label_at ws.now at).kind ≡ number ClassStatement) × (is_live (take_f 1 (records_at ws.now (at + 1))) ≡ true) × Plans ws.now at n g × (g.outer ≡ Some outer) × (b.at ≡ body_at ws.now at) × (b.state ≡ at_body ws.now at n) }
    ensures { Wrote out.old pos (assignment_by g c outer ws.now (ds ws.now at n) b.at b.state) out.new result }
{
    let p1 = assignment_head(outer, g.alias, c, out, pos);
    let a = Around {
        live: true,
        id: g.id,
    };
    let v = Walk {
        at: at + 3,
        pos: p1 + 1,
        state: State {
            next: n,
            default: None,
        },
        count: 0,
    };
    let own = records(ws, notes, inspect::children_at(ws, at + 2), a, v, c, out);
    let f = Walk {
        at: b.at,
        state: b.state,
        ..own
    };
    let inner = body_stack(g, c);
    let e = first_entries(ws, notes, g, f, inner, out);
    put(c, Kind::Array, e.count, out, p1);
    put(c, Kind::Identifier, outer, out, e.pos)
}

// Rule 7: "2, 18:C, (18:alias,) 22:2".
fn assignment_head(
    outer: u32,
    alias: Option<u32>,
    c: ClassStack,
    out: &mut [u32],
    pos: usize,
) -> usize
    requires { (pos + 4 < 4294967296) × (outer < 67108864) × Small alias }
    ensures { Wrote out.old pos (assign_words c outer alias) out.new result }
{
    let p1 = put(c, Kind::ExpressionStatement, 0, out, pos);
    let p2 = put(c, Kind::Assignment, outer, out, p1);
    let p3 = put_optional(c, Kind::Assignment, alias, out, p2);
    put(c, Kind::DecorateCall, 2, out, p3)
}

// The decorators of the first constructor's parameters in the body where the walk stands.
#[cycle(transform)]
fn first_entries(
    ws: &[u32],
    notes: &[Note],
    g: ClassPlan,
    w: Walk,
    c: ClassStack,
    out: &mut [u32],
) -> Walk
    requires { Asks ws.now notes.now w.at 1 w.state.next c w.pos (size (first_by g c ws.now w.at w.state)) × (w.count ≤ w.pos) × (w.at < length ws.now) × ((label_at ws.now w.at).kind ≡ number Body) }
    ensures { Wrote out.old w.pos (words_of c (first_by g c ws.now w.at w.state)) out.new result.pos × (result.count ≡ w.count + count_f (first_by g c ws.now w.at w.state)) }
{
    let a = Around {
        live: true,
        id: g.id,
    };
    let k = inspect::children_at(ws, w.at);
    let j = inspect::children(ws, notes, w.at).first_constructor();
    if k <= j {
        return w;
    }
    let f = counter::count_records(ws, notes, w.at + 1, j, a, w.state);
    let h = counter::count_records(ws, notes, f.at + 1, 2, a, f.state);
    let p = Walk {
        at: h.at,
        state: h.state,
        ..w
    };
    transform_decorators_of_parameters(ws, notes, a, p, c, out)
}
