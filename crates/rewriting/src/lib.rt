// The rewriting of modules as a definition, with its theorems: see specs/. The two values of the definition that walkers hold as well are declared here.
// A symbol is a plain number, here and in the code: the definitions speak of numbers, and what bounds one is said where words are made of it.
#![tactic(auto)]

// The class directly around: is it live, and the symbol of its id.
#[derive(Clone, Copy)]
pub struct Around {
    pub live: bool,
    pub id: Option<u32>,
}

// The next fresh symbol (rule 1), and the default symbol of the class around, if it has taken one (rule 4).
#[derive(Clone, Copy)]
pub struct State {
    pub next: u32,
    pub default: Option<u32>,
}
