// The reader, and what is asked of records as they are read. Reads the words and the notes, writes nothing. Every function takes every place: past the
// end of the words stands the word 0, and of the k records at a place there are fewer where the words end.
// What is asked of a row of records is a method of the reader, whose ghost field is the clause on the notes. The word at a place and what is asked of
// one record take the words, the notes where they are needed, and the place: a reader has a number of records too, which would say nothing there.
#![tactic(auto)]

ghost use Rattle.std.specs.Prelude.{◌≡◌, not, ◌+◌, ◌-◌, ◌<◌, ◌≤◌, eqb, length, get_or, IfSome};
ghost use Rattle.words.specs.Word.{bit0};
ghost use Rattle.words.specs.declared.kinds.Kind.TheVariants.{PrivateIn, Class, Body, Parameters};
ghost use Rattle.words.specs.Kinds.{number, named};
ghost use Rattle.records.specs.Forest.{end, take_f, any_f};
ghost use Rattle.records.specs.Label.{is, read_at, ◌∶◌};
ghost use Rattle.records.specs.Ends.{Ends};
ghost use Rattle.records.specs.Place.{records_at, label_at, arity_at, kids_at, end_of};
ghost use Rattle.rewriting.specs.Parts.{is_empty, decorators, of_parameters, parameters_of, elements_of, is_constructor, is_decorated_member, is_plain_key, has_plain_key, constructor_decorated, has_static, first_constructor, id_of, of_elements, has_private_in, is_live, is_decorated, is_decorated_class};
ghost use Rattle.inspect.specs.Reads.{Reads, rest};
ghost use Rattle.inspect.specs.Row.{any_row, before};
ghost use Rattle.inspect.specs.Child.{Found, DecoratorsAt, SecondWord};
ghost use Rattle.inspect.specs.Class.{has_decorators, constructs, is_decorated_constructor, is_static, count_called};
ghost use Rattle.inspect.specs.Private.{private_in, private_in_element};

mod reading;
mod word_reader;

pub use reading::Reader;
use records::Note;
pub use word_reader::WordReader;
use words::Kind;

// ---- the word at a place

// The word at i, or 0 past the end.
pub fn word_at(ws: &[u32], i: usize) -> u32
    ensures { result ≡ get_or ws.now i 0 }
{
    ws.get(i).copied().unwrap_or(0)
}

// Its kind.
pub fn kind_at(ws: &[u32], i: usize) -> Option<Kind>
    ensures named { result ≡ named (label_at ws.now i).kind }
    ensures number { IfSome result (λ k. (label_at ws.now i).kind ≡ number k) }
{
    Kind::of(word_at(ws, i))
}

// Is it of the kind?
pub fn is_kind_at(ws: &[u32], i: usize, kind: Kind) -> bool
    ensures { result ≡ eqb (label_at ws.now i).kind (number kind) }
{
    words::is_kind(word_at(ws, i), kind)
}

pub fn payload_at(ws: &[u32], i: usize) -> u32
    ensures { (result ≡ (label_at ws.now i).payload) × (result < 67108864) }
{
    words::payload_of(word_at(ws, i))
}

// The number of children of the record at i.
pub fn children_at(ws: &[u32], i: usize) -> usize
    ensures { (result ≡ arity_at ws.now i) × (result < 67108869) }
{
    words::child_count(word_at(ws, i)) as usize
}

// The word behind the k records at `at`, or 0 past the end.
pub fn word_behind(ws: &[u32], notes: &[Note], at: usize, k: usize) -> u32
    requires { Ends ws.now notes.now 0 }
    ensures { result ≡ get_or ws.now (end_of ws.now at k) 0 }
{
    Reader::new(ws, at).behind(notes, k).word()
}

// ---- children, by kind and by position; the end of the words stands for the place of one that is missing, 0 for its word

// The children of the record at `at`.
pub fn children<'a>(ws: &'a [u32], notes: &'a [Note], at: usize) -> Reader<'a>
    requires { Ends ws.now notes.now 0 }
    ensures { Reads result ws.now (kids_at ws.now at) × (result.left ≡ arity_at ws.now at) × (at ≤ length ws.now → result.at ≡ at + 1) }
{
    Reader::records(ws, notes, at.saturating_add(1), children_at(ws, at))
}

// The first child of a kind of the record at `at`.
fn child(ws: &[u32], notes: &[Note], at: usize, kind: Kind) -> usize
    requires { Ends ws.now notes.now 0 }
    ensures { Found ws.now (number kind) (at + 1) (arity_at ws.now at) result }
{
    children(ws, notes, at).first_of(kind)
}

// The parameters' record in the method, constructor or function at `at`.
pub fn parameters(ws: &[u32], notes: &[Note], at: usize) -> usize
    requires { Ends ws.now notes.now 0 }
    ensures { (kids_at ws.now result ≡ parameters_of (kids_at ws.now at)) × Found ws.now (number Parameters) (at + 1) (arity_at ws.now at) result }
{
    child(ws, notes, at, Kind::Parameters)
}

// The body of the class at `at`.
pub fn body(ws: &[u32], notes: &[Note], at: usize) -> usize
    requires { Ends ws.now notes.now 0 }
    ensures { (kids_at ws.now result ≡ elements_of (kids_at ws.now at)) × Found ws.now (number Body) (at + 1) (arity_at ws.now at) result }
{
    child(ws, notes, at, Kind::Body)
}

// The parameters of the method, constructor or function at `at`.
pub fn parameters_of<'a>(ws: &'a [u32], notes: &'a [Note], at: usize) -> Reader<'a>
    requires { Ends ws.now notes.now 0 }
    ensures { Reads result ws.now (parameters_of (kids_at ws.now at)) × (at < length ws.now → at < result.at) }
{
    children(ws, notes, parameters(ws, notes, at))
}

// The elements of the class at `at`.
pub fn elements<'a>(ws: &'a [u32], notes: &'a [Note], at: usize) -> Reader<'a>
    requires { Ends ws.now notes.now 0 }
    ensures { Reads result ws.now (elements_of (kids_at ws.now at)) × (at < length ws.now → at < result.at) }
{
    children(ws, notes, body(ws, notes, at))
}

// The decorators' record in the one at `at`, if it is the first child.
pub fn decorators(ws: &[u32], at: usize) -> usize
    ensures { DecoratorsAt ws.now at result }
{
    if children_at(ws, at) == 0 || !is_kind_at(ws, at + 1, Kind::Decorators) {
        return ws.len();
    }
    at + 1
}

// Has the record at `at` decorators of its own?
pub fn decorated(ws: &[u32], at: usize) -> bool
    ensures { result ≡ not (is_empty (decorators (kids_at ws.now at))) }
{
    let d = decorators(ws, at);
    children_at(ws, d) != 0 && d + 1 < ws.len()
}

// The word of the second child of the record at `at`: a member's key, a class's id.
fn second_word(ws: &[u32], notes: &[Note], at: usize) -> u32
    requires { Ends ws.now notes.now 0 }
    ensures { SecondWord ws.now at result }
{
    if children_at(ws, at) <= 1 {
        return 0;
    }
    word_behind(ws, notes, at + 1, 1)
}

// ---- members; `at` is the place of a method, property or abstract accessor

// Has the method or constructor at `at` a decorated parameter?
pub fn class_method_parameter_is_decorated(ws: &[u32], notes: &[Note], at: usize) -> bool
    requires { Ends ws.now notes.now 0 }
    ensures { result ≡ not (is_empty (of_parameters 0 (parameters_of (kids_at ws.now at)))) }
{
    parameters_of(ws, notes, at).any_decorated()
}

// Is the word that of a constructor?
pub fn is_constructor(w: u32) -> bool
    ensures { result ≡ is_constructor (read_at 0 w) }
{
    words::is_kind(w, Kind::Method) && words::payload_of(w) / 2 % 2 == 1
}

// Is the element at `at` a constructor?
pub fn is_constructor_at(ws: &[u32], at: usize) -> bool
    ensures { result ≡ is_constructor (label_at ws.now at) }
{
    is_constructor(word_at(ws, at))
}

// Rule 3: is the element at `at` a member with decorators, its parameters' included?
#[tactic(auto, using(crate::specs::Class::member_method, crate::specs::Class::member_constructor, crate::specs::Class::member_field, crate::specs::Class::member_other))]
fn member_decorated(ws: &[u32], notes: &[Note], at: usize) -> bool
    requires { Ends ws.now notes.now 0 }
    ensures { result ≡ is_decorated_member (label_at ws.now at) (kids_at ws.now at) }
{
    match kind_at(ws, at) {
        Some(Kind::Method) => {
            !is_constructor_at(ws, at)
                && (decorated(ws, at) || class_method_parameter_is_decorated(ws, notes, at))
        }
        Some(Kind::Property | Kind::AbstractAccessor) => decorated(ws, at),
        _ => false,
    }
}

// Rule 5: does a key of this kind give a name as it stands?
pub fn is_plain_key(kind: u32) -> bool
    ensures { result ≡ is_plain_key (kind ∶ 0) }
{
    kind < 64 && is_plain_key_word(words::word_of(kind, 0))
}

// Rule 5: does a key with this word give a name as it stands?
#[tactic(auto, using(crate::specs::Class::not_plain), unfolding(records::specs::Label::read_at))]
pub fn is_plain_key_word(w: u32) -> bool
    ensures { result ≡ is_plain_key (read_at 0 w) }
{
    matches!(
        Kind::of(w),
        Some(
            Kind::String
                | Kind::Number
                | Kind::Template
                | Kind::Null
                | Kind::Name
                | Kind::PrivateName
        )
    )
}

// Rule 5: does the key of the member at `at`?
pub fn plain_key(ws: &[u32], notes: &[Note], at: usize) -> bool
    requires { Ends ws.now notes.now 0 }
    ensures { result ≡ has_plain_key (kids_at ws.now at) }
{
    is_plain_key_word(second_word(ws, notes, at))
}

// Is the element at `at` a constructor with a decorated parameter?
fn is_decorated_constructor(ws: &[u32], notes: &[Note], at: usize) -> bool
    requires { Ends ws.now notes.now 0 }
    ensures { result ≡ is_decorated_constructor (label_at ws.now at) (kids_at ws.now at) }
{
    is_constructor_at(ws, at) && class_method_parameter_is_decorated(ws, notes, at)
}

// Is the element at `at` a static block or a static property?
#[tactic(auto, using(crate::specs::Class::static_property, crate::specs::Class::static_block, crate::specs::Class::static_other))]
fn is_static(ws: &[u32], at: usize) -> bool
    ensures { result ≡ is_static (label_at ws.now at) (kids_at ws.now at) }
{
    match kind_at(ws, at) {
        Some(Kind::Property) => payload_at(ws, at) % 2 == 1,
        Some(Kind::StaticBlock) => true,
        _ => false,
    }
}

// ---- rows: what is asked of the records that a reader has left

impl<'a> Reader<'a> {
    // The first record of a kind, or the end of the words.
    fn first_of(mut self, kind: Kind) -> usize
        ensures { Found self.entry.words.now (number kind) self.entry.at self.entry.left result }
    {
        let words = self.words;
        self.find(|&q| is_kind_at(words, q, kind))
            .unwrap_or(words.len())
    }

    // Is there a word of a kind in the records?
    fn contains(self, kind: Kind) -> bool
        ensures { result ≡ any_f (is (number kind)) (rest self.entry) }
    {
        let e = self.behind(self.left).at;
        // Not `is_some_and`: a closure would stand in a closure.
        let Some(part) = self.words.get(self.at..e) else {
            return false;
        };
        part.iter().any(|&w| words::is_kind(w, kind))
    }

    // Has one of the parameters decorators?
    pub fn any_decorated(mut self) -> bool
        ensures { result ≡ any_row has_decorators (rest self.entry) }
    {
        let words = self.words;
        self.any(|q| decorated(words, q))
    }

    // Rule 6: has any constructor among the elements a decorated parameter?
    pub fn constructor_decorated(mut self) -> bool
        ensures { result ≡ constructor_decorated (rest self.entry) }
    {
        let Reader { words, notes, .. } = self;
        self.any(|q| is_decorated_constructor(words, notes, q))
    }

    // Rule 8: is there a static property or a static block?
    pub fn has_static(mut self) -> bool
        ensures { result ≡ has_static (rest self.entry) }
    {
        let words = self.words;
        self.any(|q| is_static(words, q))
    }

    // The number of elements before the first constructor, or `left` where there is none.
    pub fn first_constructor(mut self) -> usize
        ensures { result ≡ before constructs self.entry.left (rest self.entry) }
    {
        let Reader { words, left, .. } = self;
        self.position(|q| is_constructor_at(words, q))
            .unwrap_or(left)
    }

    // Rule 7: has the first constructor a decorated parameter?
    pub fn first_constructor_decorated(mut self) -> bool
        ensures { result ≡ not (is_empty (first_constructor (rest self.entry))) }
    {
        let Reader { words, notes, .. } = self;
        self.find(|&q| is_constructor_at(words, q))
            .is_some_and(|q| class_method_parameter_is_decorated(words, notes, q))
    }

    // The number of decorated members.
    pub fn call_count(self) -> usize
        ensures { result ≡ count_called (rest self.entry) }
    {
        let Reader { words, notes, .. } = self;
        self.filter(|&q| member_decorated(words, notes, q)).count()
    }
}

// ---- classes; `at` is the place of the class

// The symbol of the id, if there is one.
pub fn class_id(ws: &[u32], notes: &[Note], at: usize) -> Option<u32>
    requires { Ends ws.now notes.now 0 }
    ensures { (result ≡ id_of (kids_at ws.now at)) × IfSome result (λ c. c < 67108864) }
{
    let w = second_word(ws, notes, at);
    if !words::is_kind(w, Kind::Id) {
        return None;
    }
    Some(words::payload_of(w))
}

// The body, by its place: behind the decorators, the one word of an id and the heritage that the flags say.
pub fn class_body(ws: &[u32], notes: &[Note], at: usize) -> usize
    requires { Ends ws.now notes.now 0 × ((label_at ws.now at).kind ≡ number Class) × (at + 1 < length ws.now) × (end_of ws.now (at + 1) (1 + bit0 (label_at ws.now at).payload) ≡ end_of ws.now (at + 1) 1 + bit0 (label_at ws.now at).payload) × (end_of ws.now (at + 1) (1 + bit0 (label_at ws.now at).payload) < length ws.now) }
    ensures { result ≡ end_of ws.now (at + 1) (arity_at ws.now at - 1) }
{
    let p = payload_at(ws, at);
    let q = notes[at + 1].end as usize + (p % 2) as usize;
    if p / 4 % 2 == 0 {
        return q;
    }
    notes[q].end as usize
}

// Rule 2: is the class of a statement live?
pub fn is_live(ws: &[u32], at: usize) -> bool
    ensures { result ≡ is_live (take_f 1 (records_at ws.now at)) }
{
    at < ws.len() && payload_at(ws, at) / 2 % 2 != 1
}

// Rule 6: is the class decorated?
pub fn check_class_has_decorated(ws: &[u32], notes: &[Note], at: usize) -> bool
    requires { Ends ws.now notes.now 0 }
    ensures { result ≡ is_decorated (kids_at ws.now at) }
{
    decorated(ws, at) || elements(ws, notes, at).constructor_decorated()
}

// Has the class decorators, or its first constructor a decorated parameter?
pub fn class_decorated_first(ws: &[u32], notes: &[Note], at: usize) -> bool
    requires { Ends ws.now notes.now 0 }
    ensures { result ≡ is_decorated_class (kids_at ws.now at) }
{
    decorated(ws, at) || elements(ws, notes, at).first_constructor_decorated()
}

// ---- rule 9: a private-in test anywhere inside a decorator

// In the decorators of the record at `at`?
fn private_in(ws: &[u32], notes: &[Note], at: usize) -> bool
    requires { Ends ws.now notes.now 0 }
    ensures { result ≡ any_f (is (number PrivateIn)) (decorators (kids_at ws.now at)) }
{
    children(ws, notes, decorators(ws, at)).contains(Kind::PrivateIn)
}

// In those of a parameter of the method or constructor at `at`?
fn private_in_parameters(ws: &[u32], notes: &[Note], at: usize) -> bool
    requires { Ends ws.now notes.now 0 }
    ensures { result ≡ any_f (is (number PrivateIn)) (of_parameters 0 (parameters_of (kids_at ws.now at))) }
{
    parameters_of(ws, notes, at).any(|q| private_in(ws, notes, q))
}

// In those of the element at `at` or of a parameter of it?
#[tactic(auto, using(crate::specs::Private::private_method, crate::specs::Private::private_constructor, crate::specs::Private::private_field, crate::specs::Private::private_other))]
fn private_in_element(ws: &[u32], notes: &[Note], at: usize) -> bool
    requires { Ends ws.now notes.now 0 }
    ensures { result ≡ private_in_element (label_at ws.now at) (kids_at ws.now at) }
{
    match kind_at(ws, at) {
        Some(Kind::Method) => {
            !is_constructor_at(ws, at) && private_in(ws, notes, at)
                || private_in_parameters(ws, notes, at)
        }
        Some(Kind::Property | Kind::AbstractAccessor) => private_in(ws, notes, at),
        _ => false,
    }
}

// In those of the class at `at`, of its elements or of their parameters?
pub fn has_private_in_expression(ws: &[u32], notes: &[Note], at: usize) -> bool
    requires { Ends ws.now notes.now 0 }
    ensures { result ≡ has_private_in (kids_at ws.now at) }
{
    private_in(ws, notes, at) || elements(ws, notes, at).any(|q| private_in_element(ws, notes, q))
}
