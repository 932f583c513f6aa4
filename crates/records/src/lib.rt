// Records in a list of words: where they end. Reads the words; `find_ends` writes the notes of their places.
#![tactic(auto)]

ghost use Rattle.std.specs.Prelude.{◌≡◌, ◌<◌, ◌≤◌, length};
ghost use Rattle.records.specs.Place.{end_of};
ghost use Rattle.records.specs.Ends.{Ends};

// What is noted of a place: where the record there ends; a mark, whose meaning goes by the record's kind (`Planned` in counter); how many fresh symbols
// the record takes where no class around is live; whether nothing changes in it.
#[derive(Clone, Copy, Default)]
pub struct Note {
    pub end: u16,
    pub count: u16,
    pub marked: bool,
    pub still: bool,
}

// The note of a place that wasn't noted yet. A constant: an array of it is cleared in one piece (speed).
pub const BLANK: Note = Note {
    end: 0,
    count: 0,
    marked: false,
    still: false,
};

// Notes of each place where the record there ends, from the last place to the first.
pub fn find_ends(ws: &[u32], notes: &mut [Note])
    requires { (length ws.now ≤ length notes.old) × (length ws.now < 65536) }
    ensures { Ends ws.now notes.new 0 × (length notes.new ≡ length notes.old) }
{
    // By place: the note there is written while those behind it are read.
    for i in (0..ws.len()).rev() {
        let n = words::child_count(ws[i]) as usize;
        notes[i].end = behind(ws, notes, i + 1, n) as u16;
    }
}

// The place behind the k records at `at`, or behind all the words where fewer are left: one step for each record. A payload that claims millions of
// children costs nothing, since no more records can be left than words.
pub fn behind(ws: &[u32], notes: &[Note], at: usize, k: usize) -> usize
    requires { Ends ws.now notes.now at }
    ensures { result ≡ end_of ws.now at k }
{
    let mut q = at;
    for _ in 0..k {
        if ws.len() <= q {
            return q;
        }
        q = notes[q].end as usize;
    }
    q
}
