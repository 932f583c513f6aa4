// The reader: the words of a module, and which of its records are read next.
ghost use Rattle.std.specs.Prelude.{◌≡◌, ◌-◌, get_or};
ghost use Rattle.records.specs.Ends.{Ends};
ghost use Rattle.records.specs.Place.{end_of};

use crate::{WordReader, word_at};
use records::Note;

// The records that are read next: the words and their notes, the place of the first, and how many. As an iterator it gives the place of each, none past
// the end of the words.
#[derive(Clone, Copy)]
pub struct Reader<'a> {
    pub words: &'a [u32],
    pub notes: &'a [Note],
    pub at: usize,
    pub left: usize,
    ghost ends: { Ends words.now notes.now 0 },
}

impl<'a> Iterator for Reader<'a> {
    ghost use Rattle.std.specs.Iterator.{item_count};
    ghost use Rattle.inspect.specs.Reads.{left, Next};

    type Item = usize;

    ghost next_gives = { Next };

    ghost remaining = { item_count left };

    fn next(&mut self) -> Option<usize> {
        if self.left == 0 || self.words.len() <= self.at {
            return None;
        }
        let at = self.at;
        self.at = records::behind(self.words, self.notes, at, 1);
        self.left -= 1;
        Some(at)
    }
}

impl<'a> Reader<'a> {
    ghost use Rattle.records.specs.Forest.{take_f};
    ghost use Rattle.records.specs.Place.{records_at};
    ghost use Rattle.inspect.specs.Reads.{Reads};

    // The words at `at`, where no notes are at hand.
    pub fn new(words: &'a [u32], at: usize) -> WordReader<'a>
        ensures { (result.words ≡ words.entry) × (result.at ≡ at) }
    {
        WordReader { words, at }
    }

    // The k records at `at`.
    pub fn records(words: &'a [u32], notes: &'a [Note], at: usize, k: usize) -> Reader<'a>
        requires { Ends words.now notes.now 0 }
        ensures { (result.words ≡ words.entry) × (result.at ≡ at) × (result.left ≡ k) × Reads result words.now (take_f k (records_at words.now at)) }
    {
        Reader {
            words,
            notes,
            at,
            left: k,
        }
    }

    // The reader behind the next k records.
    pub fn behind(self, k: usize) -> Reader<'a>
        ensures { (result.words ≡ self.entry.words) × (result.at ≡ end_of self.entry.words.now self.entry.at k) × (result.left ≡ self.entry.left - k) }
    {
        Reader {
            words: self.words,
            notes: self.notes,
            at: records::behind(self.words, self.notes, self.at, k),
            left: self.left.saturating_sub(k),
        }
    }

    // The next word, or 0 past the end.
    pub fn word(self) -> u32
        ensures { result ≡ get_or self.entry.words.now self.entry.at 0 }
    {
        word_at(self.words, self.at)
    }
}
