// The kinds of records, by name, and the kind of a word.
ghost use Rattle.std.specs.Prelude.{◌≡◌, eqb, IfSome};
ghost use Rattle.words.specs.Word.{kind_of};
ghost use Rattle.words.specs.Kinds.{number, named, Decodes};

// The top 6 bits of a word, as far as they are a kind.
#[derive(Clone, Copy, Debug, PartialEq, Eq)]
pub enum Kind {
    // The symbols, then the statements.
    Module = 1,
    // Statements.
    ExpressionStatement = 2,
    Block = 3,
    ClassStatement = 4,
    Let = 5,
    Export = 6,
    DefaultExport = 7,
    // Expressions.
    Atom = 8,
    Identifier = 9,
    String = 10,
    Number = 11,
    // Without holes.
    Template = 12,
    Null = 13,
    VoidZero = 14,
    This = 15,
    Array = 16,
    Call = 17,
    Assignment = 18,
    PrivateIn = 19,
    ClassExpression = 20,
    Function = 21,
    DecorateCall = 22,
    // A parameter's index and one of its decorators.
    ParameterCall = 23,
    PrototypeOf = 24,
    Other = 25,
    // Classes.
    Class = 26,
    Id = 27,
    Decorators = 28,
    Body = 29,
    // The elements of a body.
    Method = 30,
    Property = 31,
    AbstractAccessor = 32,
    StaticBlock = 33,
    // The keys that are no expressions.
    Name = 34,
    PrivateName = 35,
    // Parameters and code.
    Parameters = 36,
    Parameter = 37,
    Code = 39,
    // How many symbols there are.
    Symbols = 40,
}

impl From<Kind> for u32 {
    ghost from_gives = { λ k n. n ≡ number k };

    fn from(kind: Kind) -> u32 {
        kind as u32
    }
}

// A number that no kind has.
#[derive(Clone, Copy, Debug, PartialEq, Eq)]
pub struct UnknownKind(pub u32);

impl TryFrom<u32> for Kind {
    type Error = UnknownKind;

    ghost try_from_gives = { Decodes };

    #[tactic(auto, unfolding(crate::specs::Kinds::named, crate::specs::Kinds::first, crate::specs::Kinds::kinds))]
    fn try_from(n: u32) -> Result<Kind, UnknownKind> {
        match n {
            1 => Ok(Kind::Module),
            2 => Ok(Kind::ExpressionStatement),
            3 => Ok(Kind::Block),
            4 => Ok(Kind::ClassStatement),
            5 => Ok(Kind::Let),
            6 => Ok(Kind::Export),
            7 => Ok(Kind::DefaultExport),
            8 => Ok(Kind::Atom),
            9 => Ok(Kind::Identifier),
            10 => Ok(Kind::String),
            11 => Ok(Kind::Number),
            12 => Ok(Kind::Template),
            13 => Ok(Kind::Null),
            14 => Ok(Kind::VoidZero),
            15 => Ok(Kind::This),
            16 => Ok(Kind::Array),
            17 => Ok(Kind::Call),
            18 => Ok(Kind::Assignment),
            19 => Ok(Kind::PrivateIn),
            20 => Ok(Kind::ClassExpression),
            21 => Ok(Kind::Function),
            22 => Ok(Kind::DecorateCall),
            23 => Ok(Kind::ParameterCall),
            24 => Ok(Kind::PrototypeOf),
            25 => Ok(Kind::Other),
            26 => Ok(Kind::Class),
            27 => Ok(Kind::Id),
            28 => Ok(Kind::Decorators),
            29 => Ok(Kind::Body),
            30 => Ok(Kind::Method),
            31 => Ok(Kind::Property),
            32 => Ok(Kind::AbstractAccessor),
            33 => Ok(Kind::StaticBlock),
            34 => Ok(Kind::Name),
            35 => Ok(Kind::PrivateName),
            36 => Ok(Kind::Parameters),
            37 => Ok(Kind::Parameter),
            39 => Ok(Kind::Code),
            40 => Ok(Kind::Symbols),
            _ => Err(UnknownKind(n)),
        }
    }
}

impl Kind {
    // The kind of a word, if it has one.
    #[tactic(auto, using(crate::specs::Kinds::number_named))]
    pub fn of(w: u32) -> Option<Kind>
        ensures named { result ≡ named (kind_of w) }
        ensures number { IfSome result (λ k. kind_of w ≡ number k) }
    {
        Kind::try_from(crate::kind_of(w)).ok()
    }
}

// Is the word of the kind?
pub fn is_kind(w: u32, kind: Kind) -> bool
    ensures { result ≡ eqb (kind_of w) (number kind) }
{
    // The numbers, not the names: no look-up (speed).
    crate::kind_of(w) == u32::from(kind)
}
