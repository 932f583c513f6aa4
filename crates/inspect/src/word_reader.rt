// The reader of words alone: the words of a module and a place, no notes.
ghost use Rattle.std.specs.Prelude.{◌≡◌, get_or};
ghost use Rattle.records.specs.Ends.{Ends};
ghost use Rattle.records.specs.Place.{end_of};

use crate::word_at;
use records::Note;

// The words and the place that is read next.
#[derive(Clone, Copy)]
pub struct WordReader<'a> {
    pub words: &'a [u32],
    pub at: usize,
}

impl<'a> WordReader<'a> {
    // The reader behind the next k records.
    pub fn behind(self, notes: &[Note], k: usize) -> WordReader<'a>
        requires { Ends self.words.now notes.now 0 }
        ensures { (result.words ≡ self.entry.words) × (result.at ≡ end_of self.entry.words.now self.entry.at k) }
    {
        WordReader {
            words: self.words,
            at: records::behind(self.words, notes, self.at, k),
        }
    }

    // The next word, or 0 past the end.
    pub fn word(self) -> u32
        ensures { result ≡ get_or self.entry.words.now self.entry.at 0 }
    {
        word_at(self.words, self.at)
    }
}
