// How many fresh symbols each record of an accepted module takes and whether it may change: the notes of its places, filled from the last one to the first.
// The words and the notes are two parameters: the notes are written between the questions, so that a struct of both would be made anew at each place.
#![tactic(auto)]

ghost use Rattle.std.specs.Prelude.{◌≡◌, true, false, ◌+◌, ◌<◌, length, get_or};
ghost use Rattle.words.specs.declared.kinds.Kind.TheVariants.{ClassStatement};
ghost use Rattle.words.specs.Kinds.{number};
ghost use Rattle.records.specs.Ends.{blank};
ghost use Rattle.records.specs.Place.{label_at};
ghost use Rattle.counter.specs.Contract.{Planned, Ready, Noted, Annotated, Totals};
ghost use Rattle.count_table.specs.Note.{Behind, Leads, is_live_class, Clear};

use counter::Total;
use records::Note;
use rewriting::Around;
use words::Kind;

// The notes of all places of the words, their ends and aliases as they were. All ids are below s.
pub fn find_counts(ws: &[u32], notes: &mut [Note], s: u32)
    requires { Ready ws.now notes.old 0 s }
    ensures { Planned ws.now notes.new × Annotated ws.now notes.new 0 × (length notes.new ≡ length notes.old) }
{
    let mut next = ws.len();
    // By the place: the note there is written while those behind it are read.
    for i in (0..ws.len()).rev() {
        next = next_change(ws, notes, i, next);
        notes[i] = note(ws, notes, i, next, s);
    }
}

// The first place from i on with a record that may change, where `next` is the first behind i: a module, or one that is marked.
fn next_change(ws: &[u32], notes: &[Note], i: usize, next: usize) -> usize
    requires { (i < length ws.now) × Planned ws.now notes.now × Clear ws.now (i + 1) next }
    ensures { Clear ws.now i result }
{
    if notes[i].marked || inspect::is_kind_at(ws, i, Kind::Module) {
        return i;
    }
    next
}

// The note of the record at `at`, where those of the places behind it are right; next: the first place from `at` on with a record that may change.
fn note(ws: &[u32], notes: &[Note], at: usize, next: usize, s: u32) -> Note
    requires { Behind ws.now notes.now at s × Clear ws.now at next }
    ensures { Noted ws.now at result × (result.marked ≡ (get_or notes.now at blank).marked) }
{
    let note = notes[at];
    if note.end as usize <= next {
        return Note {
            count: 0,
            still: true,
            ..note
        };
    }
    let total = if is_live_class(ws, at) {
        live_total(ws, notes, at, s)
    } else {
        dead_total(ws, notes, at, s)
    };
    Note {
        count: total.count as u16,
        still: false,
        ..note
    }
}

// Is the record at `at` a class statement whose class is live?
fn is_live_class(ws: &[u32], at: usize) -> bool
    requires { at < length ws.now }
    ensures { result ≡ is_live_class ws.now at }
{
    inspect::is_kind_at(ws, at, Kind::ClassStatement) && inspect::is_live(ws, at + 1)
}

// What a class statement whose class is live leads to (rules 4 to 6).
#[tactic(auto, using(walk_laws::specs::Kinds::class_inside, walk_laws::specs::Kinds::class_kind, crate::specs::Note::live_kind))]
fn live_total(ws: &[u32], notes: &[Note], at: usize, s: u32) -> Total
    requires { Behind ws.now notes.now at s × (is_live_class ws.now at ≡ true) }
    ensures { Leads ws.now at result }
{
    let id = inspect::class_id(ws, notes, at + 1);
    let t = class_total(ws, notes, at, id, s);
    Total {
        at: t.at,
        count: t.count + counter::class_count(ws, notes, at, id, t.default),
        default: None,
    }
}

// What that class leads to: what its note says if its body has no mark, since then the class around doesn't matter.
#[tactic(auto, using(walk_laws::specs::Kinds::class_inside, walk_laws::specs::Kinds::class_kind, counter::specs::Body::body_inside))]
fn class_total(ws: &[u32], notes: &[Note], at: usize, id: Option<u32>, s: u32) -> Total
    requires { Behind ws.now notes.now at s × ((label_at ws.now at).kind ≡ number ClassStatement) }
    ensures { Totals ws.now (at + 1) 1 (record { live = true; id = id }) false result }
{
    let b = inspect::class_body(ws, notes, at + 1);
    if !notes[b].marked {
        return counter::from_note(notes[at + 1]);
    }
    counter::total_records(ws, notes, at + 1, 1, Around { live: true, id }, false)
}

// What any other record leads to where no class around is live: its children and no more.
fn dead_total(ws: &[u32], notes: &[Note], at: usize, s: u32) -> Total
    requires { Behind ws.now notes.now at s × (is_live_class ws.now at ≡ false) }
    ensures { Leads ws.now at result }
{
    counter::total_noted(ws, notes, at + 1, inspect::children_at(ws, at))
}
