// The class stack: the symbol and the alias of each class around that has an alias, the innermost last. Passed by value.
#![tactic(auto)]

ghost use Rattle.std.specs.Prelude.{◌≡◌, [], ◌∷◌, ◌+◌, ◌<◌};
ghost use Rattle.records.specs.Label.{word_at, read_at};
ghost use Rattle.class_stack.specs.Renaming.{Usable, capacity, swapped, rename_p, rename_l};

use words::Kind;

// How many classes deep.
pub const CAPACITY: usize = 16;

// Arrays with a depth beside them, not a Vec or slices: the stack is passed by value, and a library takes no heap.
#[derive(Clone, Copy)]
pub struct ClassStack {
    pub symbols: [u32; CAPACITY],
    pub aliases: [u32; CAPACITY],
    pub depth: usize,
    ghost ready: { Usable symbols aliases depth },
}

// A payload under one substitution.
fn swap(symbol: u32, alias: u32, p: u32) -> u32
    ensures { result ≡ swapped (record { symbol = symbol; alias = alias }) p }
{
    if p == symbol { alias } else { p }
}

impl ClassStack {
    ghost use Rattle.class_stack.specs.Stack.{subs};

    // No class is around.
    pub fn new() -> ClassStack
        ensures { subs result ≡ [] }
    {
        ClassStack {
            symbols: [0u32; CAPACITY],
            aliases: [0u32; CAPACITY],
            depth: 0,
        }
    }

    // One more class around, inside the others.
    pub fn push(self, symbol: u32, alias: u32) -> ClassStack
        requires { (self.depth < capacity) × (symbol < 67108864) × (alias < 67108864) }
        ensures { (subs result ≡ record { symbol = symbol; alias = alias } ∷ subs self) × (result.depth ≡ self.depth + 1) }
    {
        let mut symbols = self.symbols;
        let mut aliases = self.aliases;
        symbols[self.depth] = symbol;
        aliases[self.depth] = alias;
        ClassStack {
            symbols,
            aliases,
            depth: self.depth + 1,
        }
    }

    // The payload p of an identifier or an assignment under each substitution, from the innermost out.
    pub fn renamed(self, p: u32) -> u32
        requires { p < 67108864 }
        ensures { (result ≡ rename_p (subs self) p) × (result < 67108864) }
    {
        let mut x = p;
        // By index: both arrays, from the innermost out, as far as the depth.
        for i in (0..self.depth).rev() {
            x = swap(self.symbols[i], self.aliases[i], x);
        }
        x
    }

    // Rule 6: the word w as it stands under the classes around: as it is where none has an alias.
    pub fn word(self, w: u32) -> u32
        ensures { result ≡ word_at (rename_l (subs self) (read_at 0 w)) }
    {
        if self.depth == 0 {
            return w;
        }
        match Kind::of(w) {
            Some(Kind::Identifier | Kind::Assignment) => {
                words::word_of(words::kind_of(w), self.renamed(words::payload_of(w)))
            }
            _ => w,
        }
    }
}
