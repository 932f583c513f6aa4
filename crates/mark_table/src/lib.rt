// The notes' marks: which classes take an alias or are decorated (rule 6), which members are decorated (rule 3), whether there are private-in tests
// (rule 9); a flat loop over the places of an accepted module's words, from the last to the first. And refusal 7, in the same loop.
// The words and the notes are two parameters: the notes are written between the questions, so that a struct of both would be made anew at each place.
#![tactic(auto)]

ghost use Rattle.std.specs.Prelude.{◌≡◌, true, ◌&&◌, ◌||◌, [], ◌∷◌, ◌+◌, ◌<◌, length, get_or};
ghost use Rattle.words.specs.declared.kinds.Kind.TheVariants.{ClassStatement, Class, Method, Symbols};
ghost use Rattle.words.specs.Kinds.{number};
ghost use Rattle.words.specs.Word.{kind_of};
ghost use Rattle.records.specs.Forest.{take_f};
ghost use Rattle.records.specs.Label.{is};
ghost use Rattle.records.specs.Ends.{Ends, blank};
ghost use Rattle.records.specs.Place.{records_at, label_at, kids_at};
ghost use Rattle.grammar.specs.Grammar.{module'};
ghost use Rattle.grammar.specs.WellFormed.{Fits};
ghost use Rattle.rewriting.specs.Parts.{any_record, is_decorated, is_decorated_member, is_refused7};
ghost use Rattle.inspect.specs.Row.{any_row};
ghost use Rattle.counter.specs.Contract.{Planned};
ghost use Rattle.mark_table.specs.Marks.{takes_alias, is_marked, MarksFrom, ElementMarks, ClassMark, NoTest, PassedOver};

use alias_search::mentions_in_body;
use inspect::Reader;
use records::Note;
use words::Kind;

// The kinds that a mark or refusal 7 asks for: bit k for the kind k.
const ASKED: u64 = 1 << Kind::ClassStatement as u32
    | 1 << Kind::PrivateIn as u32
    | 1 << Kind::Class as u32
    | 1 << Kind::Body as u32
    | 1 << Kind::Method as u32
    | 1 << Kind::Property as u32
    | 1 << Kind::AbstractAccessor as u32
    | 1 << Kind::Symbols as u32;

// Notes of each place the mark of the record there; the ends as they were. Is any record one of refusal 7?
pub fn find_marks(ws: &[u32], notes: &mut [Note]) -> bool
    requires { Ends ws.now notes.old 0 × Fits (module' ∷ []) (records_at ws.now 0) }
    ensures { (result ≡ any_record is_refused7 (records_at ws.now 0)) × Planned ws.now notes.new × (length notes.new ≡ length notes.old) }
{
    let mut test = false;
    let mut refused = false;
    // By the place: the note there is written while those behind it are read.
    for i in (0..ws.len()).rev() {
        if is_passed_over(ws[i]) {
            notes[i].marked = false;
            continue;
        }
        test = any_test(ws, i, test);
        refused = any_refused_7(ws, notes, i, refused);
        notes[i].marked = is_marked(ws, notes, i, test);
    }
    refused
}

// Is the word's kind none of those asked for?
fn is_passed_over(w: u32) -> bool
    ensures { result ≡ true → PassedOver (kind_of w) }
{
    !words::is_in(w, ASKED)
}

// Is there a private-in test at i or behind it, where `test` says whether one stands behind it?
fn any_test(ws: &[u32], i: usize, test: bool) -> bool
    requires { NoTest ws.now (i + 1) test }
    ensures { NoTest ws.now i result }
{
    inspect::is_kind_at(ws, i, Kind::PrivateIn) || test
}

// The mark of the record at i, where those of the places behind it are known; test: is there a private-in test?
#[tactic(auto, using(crate::specs::Marks::marked_statement, crate::specs::Marks::marked_class, crate::specs::Marks::marked_body, crate::specs::Marks::marked_member, crate::specs::Marks::marked_other, crate::specs::Marks::marked_symbols, crate::specs::Marks::marked_none, crate::specs::Marks::marks_class, crate::specs::Marks::marks_elements, crate::specs::Places::field_own, inspect::specs::Child::kids_row))]
fn is_marked(ws: &[u32], notes: &[Note], i: usize, test: bool) -> bool
    requires { (i < length ws.now) × Ends ws.now notes.now 0 × Fits (module' ∷ []) (records_at ws.now 0) × MarksFrom ws.now notes.now (i + 1) }
    ensures { result ≡ (is_marked ws.now i || (is (number Symbols) (label_at ws.now i) && test)) }
{
    match inspect::kind_at(ws, i) {
        Some(Kind::ClassStatement) => takes_alias(ws, notes, i),
        Some(Kind::Class) => class_has_decorated(ws, notes, i),
        Some(Kind::Body) => any_marked(ws, notes, i + 1, inspect::children_at(ws, i)),
        Some(Kind::Method) => method_has_decorated(ws, notes, i),
        Some(Kind::Property | Kind::AbstractAccessor) => inspect::payload_at(ws, i + 1) != 0,
        Some(Kind::Symbols) => test,
        _ => false,
    }
}

// Is the class at i decorated (rule 6)? Its own decorators stand right behind it.
fn class_has_decorated(ws: &[u32], notes: &[Note], i: usize) -> bool
    requires { (i < length ws.now) × Ends ws.now notes.now 0 × Fits (module' ∷ []) (records_at ws.now 0) × ((label_at ws.now i).kind ≡ number Class) }
    ensures { result ≡ is_decorated (kids_at ws.now i) }
{
    inspect::payload_at(ws, i + 1) != 0
        || inspect::children(ws, notes, inspect::class_body(ws, notes, i)).constructor_decorated()
}

// Is the method at i decorated (rule 3), its parameters included? They stand behind its own decorators and its key.
fn method_has_decorated(ws: &[u32], notes: &[Note], i: usize) -> bool
    requires { (i < length ws.now) × Ends ws.now notes.now 0 × Fits (module' ∷ []) (records_at ws.now 0) × ((label_at ws.now i).kind ≡ number Method) }
    ensures { result ≡ is_decorated_member (label_at ws.now i) (kids_at ws.now i) }
{
    !inspect::is_constructor_at(ws, i)
        && (inspect::payload_at(ws, i + 1) != 0
            || inspect::children(ws, notes, records::behind(ws, notes, i + 1, 2)).any_decorated())
}

// Is one of the k elements at `at` marked?
fn any_marked(ws: &[u32], notes: &[Note], at: usize, k: usize) -> bool
    requires { Ends ws.now notes.now 0 × ElementMarks ws.now notes.now at k }
    ensures { result ≡ any_row is_decorated_member (take_f k (records_at ws.now at)) }
{
    Reader::records(ws, notes, at, k).any(|q| has_mark(notes, q))
}

// Is the record at `at` marked? None is past the end of the notes.
fn has_mark(notes: &[Note], at: usize) -> bool
    ensures { result ≡ (get_or notes.now at blank).marked }
{
    notes.get(at).is_some_and(|note| note.marked)
}

// Does the class of the statement at i take an alias?
fn takes_alias(ws: &[u32], notes: &[Note], i: usize) -> bool
    requires { (i < length ws.now) × Ends ws.now notes.now 0 × Fits (module' ∷ []) (records_at ws.now 0) × ClassMark ws.now notes.now (i + 1) × ((label_at ws.now i).kind ≡ number ClassStatement) }
    ensures { result ≡ takes_alias ws.now i }
{
    let at = i + 1;
    inspect::is_live(ws, at)
        && notes[at].marked
        && inspect::class_id(ws, notes, at).is_some_and(|c| mentions_in_body(ws, notes, at, c))
}

// ---- refusal 7

// Of the record at i or of one behind it, where `refused` says whether it is one behind it.
fn any_refused_7(ws: &[u32], notes: &[Note], i: usize, refused: bool) -> bool
    requires { (i < length ws.now) × Ends ws.now notes.now 0 × Fits (module' ∷ []) (records_at ws.now 0) × ClassMark ws.now notes.now (i + 1) × (refused ≡ any_record is_refused7 (records_at ws.now (i + 1))) }
    ensures { result ≡ any_record is_refused7 (records_at ws.now i) }
{
    is_refused_7(ws, notes, i) || refused
}

// Of the record at i, where the mark of a class right behind it is known: a decorated class that has no decorators has a constructor, so that no test
// asks for one.
fn is_refused_7(ws: &[u32], notes: &[Note], i: usize) -> bool
    requires { (i < length ws.now) × Ends ws.now notes.now 0 × Fits (module' ∷ []) (records_at ws.now 0) × ClassMark ws.now notes.now (i + 1) }
    ensures { result ≡ is_refused7 (label_at ws.now i) (kids_at ws.now i) }
{
    inspect::is_kind_at(ws, i, Kind::ClassStatement)
        && inspect::is_live(ws, i + 1)
        && notes[i + 1].marked
        && !inspect::class_decorated_first(ws, notes, i + 1)
}
