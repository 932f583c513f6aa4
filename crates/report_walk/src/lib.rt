// The symbol report of some records: one word for each fresh symbol, in order of need. Reads the words, writes the report, reads nothing back from it.
// The words, their notes and the output are parameters beside the walk, which is copied, as in `transform`.
#![tactic(auto)]

ghost use Rattle.std.specs.Prelude.{◌+◌, ◌<◌, ◌≡◌, [], ◌∷◌, true, length, get_or};
ghost use Rattle.words.specs.declared.kinds.Kind.TheVariants.{ClassStatement, ClassExpression, Class};
ghost use Rattle.words.specs.Kinds.{number as kind_number};
ghost use Rattle.records.specs.Label.{◌∶◌};
ghost use Rattle.records.specs.Ends.{Ends, blank};
ghost use Rattle.records.specs.Place.{label_at, kids_at};
ghost use Rattle.rewriting.specs.Parts.{has_plain_key, is_decorated};
ghost use Rattle.rewriting.specs.Visit.{class_symbol};
ghost use Rattle.walk_laws.specs.After.{key_after};
ghost use Rattle.walk_laws.specs.Kinds.{is_element_kind};
ghost use Rattle.counter.specs.Contract.{Planned};
ghost use Rattle.report_walk.specs.Contract.{number, HasRole, key_fresh, class_fresh, class_state, more, Takes, Asks, Reports};

use records::Note;
use rewriting::{Around, State};
use words::Kind;

// The sorts of fresh symbols, by their numbers in the report.
#[derive(Clone, Copy)]
enum Sort {
    Default = 1,
    Key = 2,
    Inner = 3,
    Alias = 4,
}

// What a record is to the report.
#[derive(Clone, Copy)]
enum Role {
    // A class statement.
    Statement,
    // A class expression.
    Expression,
    // A method, constructor, property or accessor.
    Element,
    Other,
}

// Where the walk stands in the words read and in the report; the next fresh symbol and the default symbol of the class around.
#[derive(Clone, Copy)]
pub struct Walk {
    pub at: usize,
    pub pos: usize,
    pub state: State,
}

impl Walk {
    // Takes the next fresh symbol: its word goes to `out`.
    fn put(mut self, sort: Sort, out: &mut [u32]) -> Walk
        requires { (self.state.next < 67108864) × (self.pos < 67108864) }
        ensures { Takes ((number sort ∶ self.state.next) ∷ []) (more self.state) self out.old result out.new }
    {
        self.pos = output::put(out, self.pos, words::word_of(sort as u32, self.state.next));
        self.state.next += 1;
        self
    }
}

// The next k records; the report's words go to `out`. notes: where the record at each place ends, and its mark.
#[cycle(report)]
pub fn report_records(
    ws: &[u32],
    notes: &[Note],
    k: usize,
    a: Around,
    mut w: Walk,
    out: &mut [u32],
) -> Walk
    requires { Asks ws.now notes.now w }
    ensures { Reports ws.now k a w out.old result out.new }
{
    for _ in 0..k {
        if ws.len() <= w.at {
            return w;
        }
        w = report_record(ws, notes, a, w, out);
    }
    w
}

// The next record.
#[cycle(report)]
pub fn report_record(ws: &[u32], notes: &[Note], a: Around, mut w: Walk, out: &mut [u32]) -> Walk
    requires { Asks ws.now notes.now w × (w.at < length ws.now) }
    ensures { Reports ws.now 1 a w out.old result out.new }
{
    match role_at(ws, w.at) {
        Role::Statement => report_class_statement(ws, notes, w, out),
        Role::Expression => report_class_expression(ws, notes, w, out),
        Role::Element => report_element(ws, notes, a, w, out),
        Role::Other => {
            let k = inspect::children_at(ws, w.at);
            w.at += 1;
            report_records(ws, notes, k, a, w, out)
        }
    }
}

#[tactic(auto, using(crate::specs::Steps::role_other, counter::specs::Totals::element_kind))]
fn role_at(ws: &[u32], at: usize) -> Role
    ensures { HasRole result (label_at ws.now at).kind }
{
    match inspect::kind_at(ws, at) {
        Some(Kind::ClassStatement) => Role::Statement,
        Some(Kind::ClassExpression) => Role::Expression,
        Some(Kind::Method | Kind::Property | Kind::AbstractAccessor) => Role::Element,
        _ => Role::Other,
    }
}

#[cycle(report)]
fn report_class_expression(ws: &[u32], notes: &[Note], mut w: Walk, out: &mut [u32]) -> Walk
    requires { Asks ws.now notes.now w × (w.at < length ws.now) × ((label_at ws.now w.at).kind ≡ kind_number ClassExpression) }
    ensures { (a : Around) → Reports ws.now 1 a w out.old result out.new }
{
    let around = w.state.default;
    w.at += 1;
    w.state.default = None;
    let a = Around {
        live: false,
        id: None,
    };
    w = report_records(ws, notes, 1, a, w, out);
    w.state.default = around;
    w
}

// A method, constructor, property or accessor.
#[cycle(report)]
fn report_element(ws: &[u32], notes: &[Note], a: Around, mut w: Walk, out: &mut [u32]) -> Walk
    requires { Asks ws.now notes.now w × (w.at < length ws.now) × (is_element_kind (label_at ws.now w.at).kind ≡ true) }
    ensures { Reports ws.now 1 a w out.old result out.new }
{
    let at = w.at;
    w.at += 1;
    w = report_records(ws, notes, inspect::children_at(ws, at), a, w, out);
    if !a.live || !notes[at].marked {
        return w;
    }
    let t = put_class_symbol(a.id, w, out);
    put_key_symbol(ws, notes, at, t, out)
}

// Rule 4: the default symbol, if the class takes one now. id: that of the class.
fn put_class_symbol(id: Option<u32>, w: Walk, out: &mut [u32]) -> Walk
    requires { (w.state.next < 67108864) × (w.pos < 67108864) }
    ensures { Takes (class_symbol id w.state.default w.state).fresh (class_symbol id w.state.default w.state).after w out.old result out.new }
{
    if id.is_some() || w.state.default.is_some() {
        return w;
    }
    let mut r = w.put(Sort::Default, out);
    r.state.default = Some(w.state.next);
    r
}

// Rule 5: the symbol of the key of the member at `at`, if it takes one.
fn put_key_symbol(ws: &[u32], notes: &[Note], at: usize, w: Walk, out: &mut [u32]) -> Walk
    requires { (w.state.next < 67108864) × (w.pos < 67108864) × Ends ws.now notes.now 0 }
    ensures { Takes (key_fresh (has_plain_key (kids_at ws.now at)) w.state.next) (key_after (has_plain_key (kids_at ws.now at)) w.state) w out.old result out.new }
{
    if inspect::plain_key(ws, notes, at) {
        return w;
    }
    w.put(Sort::Key, out)
}

#[cycle(report)]
fn report_class_statement(ws: &[u32], notes: &[Note], mut w: Walk, out: &mut [u32]) -> Walk
    requires { Asks ws.now notes.now w × (w.at < length ws.now) × ((label_at ws.now w.at).kind ≡ kind_number ClassStatement) }
    ensures { (a : Around) → Reports ws.now 1 a w out.old result out.new }
{
    let at = w.at;
    let around = w.state.default;
    let live = inspect::is_live(ws, at + 1);
    let id = inspect::class_id(ws, notes, at + 1);
    w.at += 1;
    w.state.default = None;
    w = report_records(ws, notes, 1, Around { live, id }, w, out);
    if live {
        w = put_class_symbols(ws, notes, at, id, w, out);
    }
    w.state.default = around;
    w
}

// Rule 6: the symbols of the live class of the statement at `at`; the walk stands behind its children.
fn put_class_symbols(
    ws: &[u32],
    notes: &[Note],
    at: usize,
    id: Option<u32>,
    w: Walk,
    out: &mut [u32],
) -> Walk
    requires { Planned ws.now notes.now × (at + 1 < length ws.now) × ((label_at ws.now (at + 1)).kind ≡ kind_number Class) × (at < 67108864) × (w.state.next + 1 < 67108864) × (w.pos + 1 < 67108864) }
    ensures { Takes (class_fresh (is_decorated (kids_at ws.now (at + 1))) id (get_or notes.now at blank).marked w.state) (class_state (is_decorated (kids_at ws.now (at + 1))) id (get_or notes.now at blank).marked w.state) w out.old result out.new }
{
    if !notes[at + 1].marked {
        return w;
    }
    if id.is_none() {
        return put_class_symbol(id, w, out);
    }
    let r = w.put(Sort::Inner, out);
    if notes[at].marked {
        return r.put(Sort::Alias, out);
    }
    r
}
