// The word: kind and payload, and the number of a record's children. Pure functions of one word.
#![tactic(auto)]

ghost use Rattle.std.specs.Prelude.{◌≡◌, ◌<◌, eqb};
ghost use Rattle.words.specs.Word.{kind_of, payload_of, word_of, children};
ghost use Rattle.words.specs.Shape.{shape_of, children_by, bit_of, apart};

mod kinds;

pub use kinds::{Kind, UnknownKind, is_kind};

// The top 6 bits.
pub fn kind_of(w: u32) -> u32
    ensures { result ≡ kind_of w }
{
    w >> 26
}

// The low 26 bits.
pub fn payload_of(w: u32) -> u32
    ensures { result ≡ payload_of w }
{
    w & 67108863
}

// The word of a kind and a payload. Of a number, not a `Kind`: a line of text may hold a kind that has no name.
pub fn word_of(kind: u32, payload: u32) -> u32
    requires { (kind < 64) × (payload < 67108864) }
    ensures { result ≡ word_of kind payload }
{
    (kind << 26) | payload
}

// Sets of kinds, bit k for the kind k: a word is tested by one shift, and no branch goes by its kind (speed).

// The kinds with one child that is always there.
const ONE: u64 = 1 << Kind::Module as u32
    | 1 << Kind::ExpressionStatement as u32
    | 1 << Kind::ClassStatement as u32
    | 1 << Kind::Let as u32
    | 1 << Kind::Call as u32
    | 1 << Kind::Assignment as u32
    | 1 << Kind::PrivateIn as u32
    | 1 << Kind::ClassExpression as u32
    | 1 << Kind::ParameterCall as u32
    | 1 << Kind::PrototypeOf as u32
    | 1 << Kind::Parameter as u32;

// The kinds whose payload counts the children, or the other children.
const MANY: u64 = 1 << Kind::Module as u32
    | 1 << Kind::Block as u32
    | 1 << Kind::Array as u32
    | 1 << Kind::Call as u32
    | 1 << Kind::DecorateCall as u32
    | 1 << Kind::Decorators as u32
    | 1 << Kind::Body as u32
    | 1 << Kind::StaticBlock as u32
    | 1 << Kind::Parameters as u32
    | 1 << Kind::Parameter as u32
    | 1 << Kind::Code as u32;

// The kinds whose children are counted in other ways.
const APART: u64 = 1 << Kind::Function as u32
    | 1 << Kind::Other as u32
    | 1 << Kind::Class as u32
    | 1 << Kind::Method as u32
    | 1 << Kind::Property as u32
    | 1 << Kind::AbstractAccessor as u32;

// Is the word's kind in a set of kinds? Bit k of the set is the kind k.
pub fn is_in(w: u32, set: u64) -> bool
    ensures { result ≡ eqb (bit_of set (kind_of w)) 1 }
{
    (set >> (w >> 26)) & 1 == 1
}

// The number of children of a record whose kind is in APART.
#[tactic(auto, using(crate::specs::Kinds::number_named), unfolding(crate::specs::Shape::children_by, crate::specs::Shape::shape_of, crate::specs::Shape::shapes, crate::specs::Shape::counted, crate::specs::Table::lookup, crate::specs::Word::bit0, crate::specs::Word::bit1, crate::specs::Word::bit2))]
fn counted_apart(w: u32) -> u32
    requires { bit_of apart (kind_of w) ≡ 1 }
    ensures { result ≡ children_by (payload_of w) (shape_of (kind_of w)) }
{
    let payload = payload_of(w);
    match Kind::of(w) {
        Some(Kind::Other) => payload % 256,
        Some(Kind::Class) => 2 + payload % 2 + payload / 4 % 2,
        Some(Kind::Method) => 3 + payload / 4 % 2,
        Some(Kind::Property) => 2 + payload / 2 % 2,
        _ => 2,
    }
}

// The number of children of the record that begins with the word.
pub fn child_count(w: u32) -> u32
    ensures { result ≡ children (kind_of w) (payload_of w) }
{
    if is_in(w, APART) {
        return counted_apart(w);
    }
    let one = u32::from(is_in(w, ONE));
    if is_in(w, MANY) {
        return one + payload_of(w);
    }
    one
}
