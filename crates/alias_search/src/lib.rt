// Rule 6's search, by the words as read: does an identifier or an assignment of the symbol C stand in what some records become? No state, no alias and
// no output is needed for it. Rows of records are readers; one record is its place beside the words and their notes, since nothing is read behind it.
#![tactic(auto)]

ghost use Rattle.std.specs.Prelude.{◌≡◌, cond, ◌&&◌, ◌<◌, length};
ghost use Rattle.words.specs.declared.kinds.Kind.TheVariants.{ClassStatement, Method};
ghost use Rattle.words.specs.Kinds.{number};
ghost use Rattle.records.specs.Ends.{Ends};
ghost use Rattle.records.specs.Place.{label_at, kids_at};
ghost use Rattle.rewriting.specs.Parts.{elements_of, id_of, has_private_in, is_decorated};
ghost use Rattle.inspect.specs.Reads.{Reads, rest};
ghost use Rattle.alias_search.specs.Mentions.{whole, gone, until, each, elements, of_field, of_method, of_elements, of_class, is_symbol, names, mentions_word, inner, mentions_by, mentions_record, mentions};
ghost use Rattle.alias_search.specs.Walk.{but_28, part};

use inspect::Reader;
use records::Note;
use words::Kind;

// In the rewritten elements of the class at `at`: its member decorators have left them (rule 6).
pub fn mentions_in_body(ws: &[u32], notes: &[Note], at: usize, c: u32) -> bool
    requires { Ends ws.now notes.now 0 × (c < 67108864) }
    ensures { result ≡ mentions c (elements_of (kids_at ws.now at)) }
{
    mentions(inspect::elements(ws, notes, at), c)
}

// In what the records become.
// Loops here and below, not chains: the walkers call one another, so a closure would need a precondition and a measure of its own.
#[cycle(mentions)]
pub fn mentions(records: Reader, c: u32) -> bool
    ensures { result ≡ mentions c (rest records.entry) }
{
    for q in records {
        if mentions_record(records.words, records.notes, q, c) {
            return true;
        }
    }
    false
}

// In what the record at `at` becomes.
#[cycle(mentions)]
fn mentions_record(ws: &[u32], notes: &[Note], at: usize, c: u32) -> bool
    requires { Ends ws.now notes.now 0 × (at < length ws.now) }
    ensures { result ≡ mentions_record c (label_at ws.now at) (kids_at ws.now at) }
{
    if mentions_word(ws, notes, at, c) {
        return true;
    }
    match inspect::kind_at(ws, at) {
        Some(Kind::ClassStatement) => class_statement(ws, notes, at, c),
        Some(Kind::Method) => method(ws, notes, at, c),
        Some(Kind::Property | Kind::AbstractAccessor) => mentions(undecorated(ws, notes, at), c),
        _ => mentions(inspect::children(ws, notes, at), c),
    }
}

// Is the record at `at` such an identifier or assignment, or a class statement whose calls or assignment name the class by c?
#[tactic(auto, using(crate::specs::Walk::statement_word, crate::specs::Walk::word_9, crate::specs::Walk::word_18, crate::specs::Walk::no_word, crate::specs::Walk::statement_within))]
fn mentions_word(ws: &[u32], notes: &[Note], at: usize, c: u32) -> bool
    requires { Ends ws.now notes.now 0 }
    ensures { result ≡ mentions_word c (label_at ws.now at) (kids_at ws.now at) }
{
    match inspect::kind_at(ws, at) {
        Some(Kind::ClassStatement) => {
            inspect::is_live(ws, at + 1) && names(ws, notes, at + 1, c)
        }
        Some(Kind::Identifier | Kind::Assignment) => inspect::payload_at(ws, at) == c,
        _ => false,
    }
}

// Has the live class at `at` the id c, and a call or an assignment to name it?
#[tactic(auto, using(crate::specs::Walk::names_counted, inspect::specs::Reads::reads_rest))]
fn names(ws: &[u32], notes: &[Note], at: usize, c: u32) -> bool
    requires { Ends ws.now notes.now 0 }
    ensures { result ≡ names c (kids_at ws.now at) }
{
    if !is_named(ws, notes, at, c) {
        return false;
    }
    inspect::elements(ws, notes, at).call_count() != 0
        || inspect::check_class_has_decorated(ws, notes, at)
            && !inspect::has_private_in_expression(ws, notes, at)
}

// Has the class at `at` the id c?
fn is_named(ws: &[u32], notes: &[Note], at: usize, c: u32) -> bool
    requires { Ends ws.now notes.now 0 }
    ensures { result ≡ is_symbol c (id_of (kids_at ws.now at)) }
{
    inspect::class_id(ws, notes, at) == Some(c)
}

// ---- members and parameters

// The children of the record at `at` without its decorators.
fn undecorated<'a>(ws: &'a [u32], notes: &'a [Note], at: usize) -> Reader<'a>
    requires { Ends ws.now notes.now 0 × (at < length ws.now) }
    ensures { Reads result ws.now (but_28 (kids_at ws.now at)) × (at < result.at) }
{
    let r = inspect::children(ws, notes, at);
    if inspect::is_kind_at(ws, r.at, Kind::Decorators) {
        r.behind(1)
    } else {
        r
    }
}

// In the children of the constructor at `at`, or of the method, without its decorators and its parameters'.
#[cycle(mentions)]
fn method(ws: &[u32], notes: &[Note], at: usize, c: u32) -> bool
    requires { Ends ws.now notes.now 0 × ((at < length ws.now) × ((label_at ws.now at).kind ≡ number Method)) }
    ensures { result ≡ mentions_by c (inner c (label_at ws.now at) (kids_at ws.now at)) (kids_at ws.now at) }
{
    if inspect::is_constructor_at(ws, at) {
        mentions(inspect::children(ws, notes, at), c)
    } else {
        bare_method(ws, notes, at, c)
    }
}

// In the children of the method or constructor at `at` without its decorators and its parameters'.
#[cycle(mentions)]
fn bare_method(ws: &[u32], notes: &[Note], at: usize, c: u32) -> bool
    requires { Ends ws.now notes.now 0 × (at < length ws.now) }
    ensures { result ≡ mentions_by c of_method (kids_at ws.now at) }
{
    but_first(undecorated(ws, notes, at), Kind::Parameters, c)
        || parameters(inspect::parameters_of(ws, notes, at), c)
}

// In the parameters without their decorators.
#[cycle(mentions)]
fn parameters(records: Reader, c: u32) -> bool
    ensures { result ≡ mentions_by c (each of_field) (rest records.entry) }
{
    for q in records {
        if parameter(records.words, records.notes, q, c) {
            return true;
        }
    }
    false
}

// In the parameter at `at` without its decorators.
#[cycle(mentions)]
fn parameter(ws: &[u32], notes: &[Note], at: usize, c: u32) -> bool
    requires { Ends ws.now notes.now 0 × (at < length ws.now) }
    ensures { result ≡ part c (each of_field) (label_at ws.now at) (kids_at ws.now at) }
{
    mentions_word(ws, notes, at, c) || mentions(undecorated(ws, notes, at), c)
}

// In the records but the children of the first of a kind.
#[cycle(mentions)]
fn but_first(mut records: Reader, kind: Kind, c: u32) -> bool
    requires { 18 < number kind }
    ensures { result ≡ mentions_by c (until (number kind) gone) (rest records.entry) }
{
    let Reader { words, notes, .. } = records;
    // Not a `for`: the records behind the one that is found are asked another question.
    while let Some(q) = records.next() {
        if inspect::is_kind_at(words, q, kind) {
            return mentions(records, c);
        }
        if mentions_record(words, notes, q, c) {
            return true;
        }
    }
    false
}

// ---- classes

// In the class of the statement at `at`, and in all that a live one puts behind itself but its own symbol.
#[cycle(mentions)]
fn class_statement(ws: &[u32], notes: &[Note], at: usize, c: u32) -> bool
    requires { Ends ws.now notes.now 0 × ((at < length ws.now) × ((label_at ws.now at).kind ≡ number ClassStatement)) }
    ensures { result ≡ mentions_by c (inner c (label_at ws.now at) (kids_at ws.now at)) (kids_at ws.now at) }
{
    if !inspect::is_live(ws, at + 1) {
        return mentions(inspect::children(ws, notes, at), c);
    }
    mentions_word(ws, notes, at + 1, c) || live_class(ws, notes, at + 1, c)
}

// The same of the live class at `at`.
#[cycle(mentions)]
fn live_class(ws: &[u32], notes: &[Note], at: usize, c: u32) -> bool
    requires { Ends ws.now notes.now 0 × (at < length ws.now) }
    ensures { result ≡ mentions_by c (of_class c (kids_at ws.now at)) (kids_at ws.now at) }
{
    but_first(searched_children(ws, notes, at), Kind::Body, c) || class_elements(ws, notes, at, c)
}

// The children of the live class at `at`, without its decorators where they are dropped.
fn searched_children<'a>(ws: &'a [u32], notes: &'a [Note], at: usize) -> Reader<'a>
    requires { Ends ws.now notes.now 0 × (at < length ws.now) }
    ensures { Reads result ws.now (cond (is_decorated (kids_at ws.now at) && has_private_in (kids_at ws.now at)) (but_28 (kids_at ws.now at)) (kids_at ws.now at)) × (at < result.at) }
{
    if drops_decorators(ws, notes, at) {
        undecorated(ws, notes, at)
    } else {
        inspect::children(ws, notes, at)
    }
}

// Rule 9: is the class at `at` decorated, and has it a private-in test?
fn drops_decorators(ws: &[u32], notes: &[Note], at: usize) -> bool
    requires { Ends ws.now notes.now 0 }
    ensures { result ≡ (is_decorated (kids_at ws.now at) && has_private_in (kids_at ws.now at)) }
{
    inspect::check_class_has_decorated(ws, notes, at)
        && inspect::has_private_in_expression(ws, notes, at)
}

// In the elements of the live class at `at`, with what they queue. Under rule 9 a decorated class's id is replaced in them by the alias.
#[cycle(mentions)]
fn class_elements(ws: &[u32], notes: &[Note], at: usize, c: u32) -> bool
    requires { Ends ws.now notes.now 0 × (at < length ws.now) }
    ensures { result ≡ mentions_by c (of_elements (is_decorated (kids_at ws.now at)) (has_private_in (kids_at ws.now at)) (is_symbol c (id_of (kids_at ws.now at)))) (elements_of (kids_at ws.now at)) }
{
    let members = inspect::elements(ws, notes, at);
    if !inspect::check_class_has_decorated(ws, notes, at) {
        return all_elements(members, c);
    }
    if !inspect::has_private_in_expression(ws, notes, at) {
        return elements(members, false, c);
    }
    if is_named(ws, notes, at, c) {
        return false;
    }
    elements(members, true, c)
}

// In the elements with what they queue, the first constructor without its decorators and, where they are dropped, its parameters'.
// A flag, not two functions: the loop would stand twice.
#[cycle(mentions)]
fn elements(mut records: Reader, dropped: bool, c: u32) -> bool
    ensures { result ≡ mentions_by c (elements (cond dropped of_method of_field)) (rest records.entry) }
{
    let Reader { words, notes, .. } = records;
    // Not a `for`, as in `but_first`.
    while let Some(q) = records.next() {
        if inspect::is_constructor_at(words, q) {
            return constructor(words, notes, q, dropped, c) || all_elements(records, c);
        }
        if element(words, notes, q, c) {
            return true;
        }
    }
    false
}

#[cycle(mentions)]
fn constructor(ws: &[u32], notes: &[Note], at: usize, dropped: bool, c: u32) -> bool
    requires { Ends ws.now notes.now 0 × (at < length ws.now) }
    ensures { result ≡ mentions_by c (cond dropped of_method of_field) (kids_at ws.now at) }
{
    if dropped {
        bare_method(ws, notes, at, c)
    } else {
        mentions(undecorated(ws, notes, at), c)
    }
}

// In the elements with what they queue.
#[cycle(mentions)]
fn all_elements(records: Reader, c: u32) -> bool
    ensures { result ≡ mentions_by c (each whole) (rest records.entry) }
{
    for q in records {
        if element(records.words, records.notes, q, c) {
            return true;
        }
    }
    false
}

// In the element at `at`.
#[cycle(mentions)]
fn element(ws: &[u32], notes: &[Note], at: usize, c: u32) -> bool
    requires { Ends ws.now notes.now 0 × (at < length ws.now) }
    ensures { result ≡ part c (each whole) (label_at ws.now at) (kids_at ws.now at) }
{
    mentions_word(ws, notes, at, c) || mentions(inspect::children(ws, notes, at), c)
}
