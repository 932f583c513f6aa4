// The next fresh symbol and the default symbol of the class around, behind some records (rules 1 and 4 to 6). Reads the words and their notes, writes
// nothing; walks no further down than to the elements of a class, since the notes say the rest.
// A place stands beside the number of records, not in a `Reader`: what is behind them is answered as a place, and the walk goes on from there.
#![tactic(auto)]

ghost use Rattle.std.specs.Prelude.{◌≡◌, true, false, ◌||◌, ◌+◌, ◌<◌, ◌≤◌, length, get_or, is_some, None};
ghost use Rattle.words.specs.declared.kinds.Kind.TheVariants.{Class};
ghost use Rattle.words.specs.Kinds.{number};
ghost use Rattle.records.specs.Ends.{Ends, blank};
ghost use Rattle.records.specs.Place.{label_at, kids_at};
ghost use Rattle.rewriting.specs.Parts.{has_plain_key, is_decorated};
ghost use Rattle.walk_laws.specs.Kinds.{is_element_kind};
ghost use Rattle.counter.specs.Contract.{is_walked, unlive, Planned, Ready, Counts, Annotated, Walks, Totals, Near, default_from, key_count, class_count};

use records::Note;
use rewriting::{Around, State};
use words::Kind;

// The state behind some records, and where they end.
#[derive(Clone, Copy)]
pub struct Counted {
    pub at: usize,
    pub state: State,
}

// How far some records lead: where they end, how many fresh symbols they take, and which of these, counted from 0, becomes the default symbol of the
// class around, if one does.
#[derive(Clone, Copy)]
pub struct Total {
    pub at: usize,
    pub count: u32,
    pub default: Option<u32>,
}

// The k records at `at`. notes: what `annotate` says of each place.
pub fn count_records(
    ws: &[u32],
    notes: &[Note],
    at: usize,
    k: usize,
    a: Around,
    s: State,
) -> Counted
    requires { Ready ws.now notes.now at s.next × Annotated ws.now notes.now at }
    ensures { Counts ws.now at k a s result }
{
    total_records(ws, notes, at, k, a, s.default.is_some()).behind(s)
}

// The record at `at`, which is neither a class nor a body.
pub fn count_record(ws: &[u32], notes: &[Note], at: usize, a: Around, s: State) -> Counted
    requires { Ready ws.now notes.now at s.next × Annotated ws.now notes.now at × (at < length ws.now) × (is_walked (label_at ws.now at).kind ≡ false) }
    ensures { Counts ws.now at 1 a s result }
{
    total_single(ws, notes, at, a, s.default.is_some()).behind(s)
}

impl Total {
    // The state behind the records, from the state s on.
    fn behind(self, s: State) -> Counted
        requires { (s.next + self.count < 67108864) × Near self.default s.next }
        ensures { (result.at ≡ self.at) × (result.state.next ≡ s.next + self.count) × (result.state.default ≡ default_from self.default s.next s.default) }
    {
        Counted {
            at: self.at,
            state: State {
                next: s.next + self.count,
                default: default_from(self.default, s.next, s.default),
            },
        }
    }
}

// The default symbol behind records that take the symbol n + o for it, or d if there is no o.
fn default_from(o: Option<u32>, n: u32, d: Option<u32>) -> Option<u32>
    requires { Near o n }
    ensures { result ≡ default_from o n d }
{
    match o {
        Some(o) => Some(n + o),
        None => d,
    }
}

// The k records at `at`; has: the class around has its default symbol. A record in which nothing changes takes no symbol.
#[cycle(total)]
pub fn total_records(ws: &[u32], notes: &[Note], at: usize, k: usize, a: Around, has: bool) -> Total
    requires { Walks ws.now notes.now at }
    ensures { Totals ws.now at k a has result }
{
    let mut t = Total {
        at,
        count: 0,
        default: None,
    };
    for _ in 0..k {
        if ws.len() <= t.at {
            return t;
        }
        let note = notes[t.at];
        if note.still {
            t.at = note.end as usize;
            continue;
        }
        let r = total_record(ws, notes, t.at, a, t.default.is_some() | has);
        t = Total {
            at: r.at,
            count: t.count + r.count,
            default: default_from(r.default, t.count, t.default),
        };
    }
    t
}

// The k records at `at` where no class around is live: what their notes say. Not `total_records` with such a class, which answers the same: that asks
// each record for the class around, and the whole call took longer (speed).
pub fn total_noted(ws: &[u32], notes: &[Note], at: usize, k: usize) -> Total
    requires { Walks ws.now notes.now at }
    ensures { Totals ws.now at k unlive false result }
{
    let mut t = Total {
        at,
        count: 0,
        default: None,
    };
    for _ in 0..k {
        if ws.len() <= t.at {
            return t;
        }
        let r = from_note(notes[t.at]);
        t.at = r.at;
        t.count += r.count;
    }
    t
}

#[cycle(total)]
fn total_record(ws: &[u32], notes: &[Note], at: usize, a: Around, has: bool) -> Total
    requires { Walks ws.now notes.now at × (at < length ws.now) }
    ensures { Totals ws.now at 1 a has result }
{
    if !a.live {
        return from_note(notes[at]);
    }
    if is_walked(ws, at) {
        return total_records(ws, notes, at + 1, inspect::children_at(ws, at), a, has);
    }
    total_single(ws, notes, at, a, has)
}

// Is the record at `at` a class or a body?
#[tactic(auto, using(crate::specs::Totals::walked_class, crate::specs::Totals::walked_body, crate::specs::Totals::walked_other))]
fn is_walked(ws: &[u32], at: usize) -> bool
    ensures { result ≡ is_walked (label_at ws.now at).kind }
{
    matches!(inspect::kind_at(ws, at), Some(Kind::Class | Kind::Body))
}

// Of the records that are neither a class nor a body only a decorated member of a live class depends on the class around: all else is in the note.
fn total_single(ws: &[u32], notes: &[Note], at: usize, a: Around, has: bool) -> Total
    requires { Walks ws.now notes.now at × (at < length ws.now) × (is_walked (label_at ws.now at).kind ≡ false) }
    ensures { Totals ws.now at 1 a has result }
{
    let note = notes[at];
    if !note.marked || !a.live {
        return from_note(note);
    }
    match inspect::kind_at(ws, at) {
        Some(Kind::Method | Kind::Property | Kind::AbstractAccessor) => {
            total_element(ws, notes, at, a, has)
        }
        _ => from_note(note),
    }
}

// What a note says.
pub fn from_note(note: Note) -> Total
    ensures { (result.at ≡ note.end) × (result.count ≡ note.count) × (result.default ≡ None) × (result.count < 65536) }
{
    Total {
        at: note.end as usize,
        count: note.count as u32,
        default: None,
    }
}

// A method, constructor, property or accessor of a live class.
fn total_element(ws: &[u32], notes: &[Note], at: usize, a: Around, has: bool) -> Total
    requires { Walks ws.now notes.now at × (at < length ws.now) × (is_element_kind (label_at ws.now at).kind ≡ true) × (a.live ≡ true) }
    ensures { Totals ws.now at 1 a has result }
{
    let note = notes[at];
    let t = from_note(note);
    if !note.marked {
        return t;
    }
    let key = key_count(ws, notes, at);
    if a.id.is_some() || has {
        return Total {
            count: t.count + key,
            ..t
        };
    }
    Total {
        at: t.at,
        count: t.count + 1 + key,
        default: Some(t.count),
    }
}

// Rule 5: 1 if the key of the member at `at` takes a symbol.
fn key_count(ws: &[u32], notes: &[Note], at: usize) -> u32
    requires { Ends ws.now notes.now 0 }
    ensures { (result ≡ key_count (has_plain_key (kids_at ws.now at))) × (result ≤ 1) }
{
    if inspect::plain_key(ws, notes, at) {
        0
    } else {
        1
    }
}

// Rule 6: how many symbols the live class of the statement at `at` takes; default: its default symbol, if it has one.
pub fn class_count(
    ws: &[u32],
    notes: &[Note],
    at: usize,
    id: Option<u32>,
    default: Option<u32>,
) -> u32
    requires { Planned ws.now notes.now × (at + 1 < length ws.now) × ((label_at ws.now (at + 1)).kind ≡ number Class) × (at < 67108864) }
    ensures { (result ≡ class_count (is_decorated (kids_at ws.now (at + 1))) id (get_or notes.now at blank).marked (is_some default)) × (result ≤ 2) }
{
    if !notes[at + 1].marked {
        return 0;
    }
    if id.is_some() {
        return if notes[at].marked { 2 } else { 1 };
    }
    if default.is_some() {
        return 0;
    }
    1
}
