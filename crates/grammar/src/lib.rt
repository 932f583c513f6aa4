// The grammar's leaves: the limits, the refusals, what may stand at a place and, of one word, whether it may stand there and which refusal it is.
// Flags of a payload are read where they are asked, as the definitions do (`bit0`, `bit1`, `bit2` in words/specs/Word): a payload's bits are the word's form.
#![tactic(auto)]

ghost use Rattle.std.specs.Prelude.{◌≡◌, ℕ, ◌+◌, ◌-◌};
ghost use Rattle.grammar.specs.Limits.{max_depth};
ghost use Rattle.words.specs.Word.{kind_of, payload_of};
ghost use Rattle.grammar.specs.Grammar.{row_of, holds, allowed, is_symbol};
ghost use Rattle.grammar.specs.Slots.{slot_of};
ghost use Rattle.grammar.specs.Refusals.{number_of, code_of};
ghost use Rattle.grammar.specs.Sets.{kinds_of, flag_rule};
ghost use Rattle.grammar.specs.Scan.{place, unknown_symbol, too_many_symbols, decorated_constructor, fault_at};

use words::Kind;

// The most words of a module.
pub const MAX_WORDS: usize = 4096;

// The greatest depth of a record, itself counted and the module 1.
pub const MAX_DEPTH: u32 = 64;

// The most symbols of a module.
pub const MAX_SYMBOLS: u32 = 1000000;

// Why a module is refused, by the number that a call returns.
#[derive(Clone, Copy, Debug, PartialEq, Eq)]
pub enum Refusal {
    // No words, or too many.
    BadLength = 1,
    // A word that may not stand where it does, an early end, or words left over.
    Malformed = 2,
    TooDeep = 3,
    UnknownSymbol = 4,
    TooManySymbols = 5,
    // A constructor has decorators of its own.
    DecoratedConstructor = 6,
    // Decorated parameters of a constructor, but none of the first one's and no decorators of the class.
    DecoratedLaterConstructor = 7,
    OutputTooShort = 8,
}

impl From<Refusal> for u32 {
    ghost from_gives = { λ r n. n ≡ number_of r };

    fn from(refusal: Refusal) -> u32 {
        refusal as u32
    }
}

// What may stand at a place.
#[derive(Clone, Copy, Debug, PartialEq, Eq)]
pub enum Slot {
    Module,
    Symbols,
    // A statement of a block, a static block or code.
    Statement,
    // One of the module's own list.
    OwnStatement,
    Expression,
    // A key: a name, a private name or any expression.
    Key,
    // The class of a plain statement, of an exported one, of a default export and of an expression.
    PlainClass,
    ExportedClass,
    DefaultClass,
    ClassExpression,
    Id,
    // Decorators; those of a constructor itself; those of a function's parameter.
    Decorators,
    ConstructorDecorators,
    FunctionDecorators,
    Body,
    Element,
    // The parameters of a method and of a function, and one of them.
    Parameters,
    FunctionParameters,
    Parameter,
    FunctionParameter,
    Code,
}

// Sets of kinds, bit k for the kind k. Sets and not `matches!`: a word is tested by one shift, and no branch goes by its kind (speed). The statements,
// the expressions, the elements of a class.
const STATEMENTS: u64 = 1 << Kind::ExpressionStatement as u32
    | 1 << Kind::Block as u32
    | 1 << Kind::ClassStatement as u32
    | 1 << Kind::Let as u32
    | 1 << Kind::Export as u32
    | 1 << Kind::DefaultExport as u32;

const EXPRESSIONS: u64 = 1 << Kind::Atom as u32
    | 1 << Kind::Identifier as u32
    | 1 << Kind::String as u32
    | 1 << Kind::Number as u32
    | 1 << Kind::Template as u32
    | 1 << Kind::Null as u32
    | 1 << Kind::VoidZero as u32
    | 1 << Kind::This as u32
    | 1 << Kind::Array as u32
    | 1 << Kind::Call as u32
    | 1 << Kind::Assignment as u32
    | 1 << Kind::PrivateIn as u32
    | 1 << Kind::ClassExpression as u32
    | 1 << Kind::Function as u32
    | 1 << Kind::DecorateCall as u32
    | 1 << Kind::ParameterCall as u32
    | 1 << Kind::PrototypeOf as u32
    | 1 << Kind::Other as u32
    | 1 << Kind::Name as u32
    | 1 << Kind::PrivateName as u32;

const ELEMENTS: u64 = 1 << Kind::Method as u32
    | 1 << Kind::Property as u32
    | 1 << Kind::AbstractAccessor as u32
    | 1 << Kind::StaticBlock as u32;

// The kinds with any payload.
const FREE: u64 = 1 << Kind::Module as u32
    | 1 << Kind::Block as u32
    | 1 << Kind::Let as u32
    | 1 << Kind::Atom as u32
    | 1 << Kind::Identifier as u32
    | 1 << Kind::String as u32
    | 1 << Kind::Number as u32
    | 1 << Kind::Template as u32
    | 1 << Kind::Array as u32
    | 1 << Kind::Call as u32
    | 1 << Kind::Assignment as u32
    | 1 << Kind::PrivateIn as u32
    | 1 << Kind::ParameterCall as u32
    | 1 << Kind::Other as u32
    | 1 << Kind::Id as u32
    | 1 << Kind::Body as u32
    | 1 << Kind::StaticBlock as u32
    | 1 << Kind::Parameters as u32
    | 1 << Kind::Code as u32
    | 1 << Kind::Symbols as u32;

// The kinds with no payload but 0.
const EMPTY: u64 = 1 << Kind::ExpressionStatement as u32
    | 1 << Kind::Null as u32
    | 1 << Kind::VoidZero as u32
    | 1 << Kind::This as u32
    | 1 << Kind::ClassExpression as u32
    | 1 << Kind::Function as u32
    | 1 << Kind::PrototypeOf as u32;

// The kinds that have a limit of their own: decorators and symbols.
const LIMITED: u64 = 1 << Kind::Decorators as u32 | 1 << Kind::Symbols as u32;

// The kinds whose payload is a symbol.
const WITH_SYMBOL: u64 = 1 << Kind::Let as u32
    | 1 << Kind::Export as u32
    | 1 << Kind::DefaultExport as u32
    | 1 << Kind::Identifier as u32
    | 1 << Kind::Assignment as u32
    | 1 << Kind::Id as u32;

// The kinds that a slot takes.
#[tactic(auto, unfolding(crate::specs::Sets::kinds_of, crate::specs::Sets::kind_sets, words::specs::Table::lookup))]
fn kinds_of(slot: Slot) -> u64
    ensures { result ≡ kinds_of (slot_of slot).category }
{
    match slot {
        Slot::Module => 1 << Kind::Module as u32,
        Slot::Symbols => 1 << Kind::Symbols as u32,
        Slot::Statement | Slot::OwnStatement => STATEMENTS,
        Slot::Expression | Slot::Key => EXPRESSIONS,
        Slot::PlainClass | Slot::ExportedClass | Slot::DefaultClass | Slot::ClassExpression => {
            1 << Kind::Class as u32
        }
        Slot::Id => 1 << Kind::Id as u32,
        Slot::Decorators | Slot::ConstructorDecorators | Slot::FunctionDecorators => {
            1 << Kind::Decorators as u32
        }
        Slot::Body => 1 << Kind::Body as u32,
        Slot::Element => ELEMENTS,
        Slot::Parameters | Slot::FunctionParameters => 1 << Kind::Parameters as u32,
        Slot::Parameter | Slot::FunctionParameter => 1 << Kind::Parameter as u32,
        Slot::Code => 1 << Kind::Code as u32,
    }
}

// May a word have its payload in a slot that takes its kind, where that is neither FREE nor EMPTY.
#[tactic(auto, unfolding(crate::specs::Grammar::holds, crate::specs::Sets::flag_rule, words::specs::Word::bit0, words::specs::Word::bit1, words::specs::Table::lookup))]
fn flags_hold(slot: Slot, w: u32) -> bool
    requires { (row_of (kind_of w)).category ≡ (slot_of slot).category }
    ensures { result ≡ holds (flag_rule (kind_of w)) (slot_of slot).context (payload_of w) }
{
    let payload = words::payload_of(w);
    match Kind::of(w) {
        Some(Kind::ClassStatement) => match slot {
            Slot::OwnStatement => payload < 3,
            _ => payload == 0,
        },
        Some(Kind::DecorateCall) => matches!(payload, 2 | 4),
        Some(Kind::Class) => match slot {
            Slot::PlainClass | Slot::ExportedClass => payload < 8 && payload % 2 == 1,
            _ => payload < 8 && payload / 2 % 2 == 0,
        },
        Some(Kind::Decorators) => match slot {
            Slot::FunctionDecorators => payload == 0,
            _ => true,
        },
        Some(Kind::Method) => payload < 8 && payload % 4 != 3,
        Some(Kind::Property) => payload < 4,
        Some(Kind::AbstractAccessor | Kind::Parameter) => payload < 2,
        _ => matches!(slot, Slot::OwnStatement | Slot::Key),
    }
}

// May a word stand in a slot. In line, as `fault` is: each copy of the scan has its own (speed).
#[tactic(auto, using(crate::proofs::SetLaws::set_laws), unfolding(crate::specs::Sets::free, crate::specs::Sets::empty))]
#[inline(always)]
fn is_allowed(slot: Slot, w: u32) -> bool
    ensures { result ≡ allowed (slot_of slot) (kind_of w) (payload_of w) }
{
    // Each test of a set is one shift and answers at once. One chain of `&&` and `||` stops as early, but needs an `if` inside for EMPTY: no plainer.
    if !words::is_in(w, kinds_of(slot)) {
        return false;
    }
    if words::is_in(w, FREE) {
        return true;
    }
    if words::is_in(w, EMPTY) {
        return words::payload_of(w) == 0;
    }
    flags_hold(slot, w)
}

// Is the payload of the word a symbol.
#[tactic(auto, using(crate::proofs::SetLaws::symbol_laws), unfolding(crate::specs::Sets::with_symbol))]
fn is_symbol(w: u32) -> bool
    ensures { result ≡ is_symbol (kind_of w) }
{
    words::is_in(w, WITH_SYMBOL)
}

// Is it a symbol that isn't one of s.
#[tactic(auto, unfolding(crate::specs::Scan::unknown_symbol))]
fn is_unknown_symbol(s: u32, w: u32) -> bool
    ensures { result ≡ unknown_symbol s (kind_of w) (payload_of w) }
{
    is_symbol(w) && s <= words::payload_of(w)
}

// Is it the number of symbols, and over the limit.
#[tactic(auto, unfolding(crate::specs::Scan::too_many_symbols))]
fn is_too_many_symbols(w: u32) -> bool
    ensures { result ≡ too_many_symbols (kind_of w) (payload_of w) }
{
    words::is_kind(w, Kind::Symbols) && MAX_SYMBOLS < words::payload_of(w)
}

// Are they a constructor's own decorators, and some.
#[tactic(auto, unfolding(crate::specs::Scan::decorated_constructor, crate::specs::Scan::place))]
fn is_decorated_constructor(slot: Slot, payload: u32) -> bool
    ensures { (depth : ℕ) → result ≡ decorated_constructor (place (slot_of slot) depth) payload }
{
    slot == Slot::ConstructorDecorators && payload != 0
}

// The lowest refusal that a word has at a place, if any. `s` is the number of symbols, `left` the number of levels that are left, the word's own counted.
#[tactic(auto, using(crate::proofs::SetLaws::limit_laws), unfolding(crate::specs::Scan::fault_at, crate::specs::Scan::fault_of, crate::specs::Scan::place, crate::specs::Sets::limited))]
#[inline(always)]
pub fn fault(s: u32, slot: Slot, left: u32, w: u32) -> Result<(), Refusal>
    ensures { code_of result ≡ fault_at s (place (slot_of slot) (max_depth + 1 - left)) w }
{
    if !is_allowed(slot, w) {
        return Err(Refusal::Malformed);
    }
    if left == 0 {
        return Err(Refusal::TooDeep);
    }
    if is_unknown_symbol(s, w) {
        return Err(Refusal::UnknownSymbol);
    }
    if !words::is_in(w, LIMITED) {
        return Ok(());
    }
    if is_too_many_symbols(w) {
        return Err(Refusal::TooManySymbols);
    }
    if is_decorated_constructor(slot, words::payload_of(w)) {
        return Err(Refusal::DecoratedConstructor);
    }
    Ok(())
}
