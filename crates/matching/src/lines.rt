// The text of an answer, and that of a refusal.
ghost use Rattle.std.specs.Prelude.{◌+◌, ◌≤◌, length, take};
ghost use Rattle.text.specs.Puts.{Puts};
ghost use Rattle.matching.specs.Answer.{lines_of, entry_lines, refused_text};
ghost use Rattle.matching.specs.Lines.{pairs_in, Listed};

use entries::Entry;
use limits::MAX_NEIGHBOURS;
use refusal::Refusal;
use text::{put_refused, put_three, put_two};

// Line one, then a line for each of the first k entries.
pub(crate) fn put_answer(
    k: usize,
    count: usize,
    settings: &[u32],
    entries: [Entry; MAX_NEIGHBOURS],
    text: &mut [u8],
) -> usize
    requires listed { Listed k settings.now entries }
    requires entries_in_bounds { length (lines_of settings.now k count (pairs_in (take k entries))) ≤ length text.old }
    ensures { Puts (lines_of settings.now k count (pairs_in (take k entries))) 0
        text.old text.new result }
{
    let next = put_two(k as u64, count as u64, text);
    put_entries(k, settings, entries, text, next)
}

// The lines of the first k entries, from an index on: each entry's number, the settings of the vector of that number, its distance.
fn put_entries(
    k: usize,
    settings: &[u32],
    entries: [Entry; MAX_NEIGHBOURS],
    text: &mut [u8],
    at: usize,
) -> usize
    requires listed { Listed k settings.now entries }
    requires entries_in_bounds { at + length (entry_lines settings.now (pairs_in (take k entries))) ≤ length text.old }
    ensures { Puts (entry_lines settings.now (pairs_in (take k entries))) at text.old text.new result }
{
    let mut next = at;
    for entry in &entries[..k] {
        let number = entry.number as usize;
        let vector_settings = settings[number];
        let length = put_three(
            u64::from(entry.number),
            u64::from(vector_settings),
            entry.distance,
            &mut text[next..],
        );
        next += length;
    }
    next
}

// The line of a refusal.
pub(crate) fn put_refusal(cause: Refusal, text: &mut [u8]) -> usize
    ensures { Puts (refused_text cause) 0 text.old text.new result }
{
    put_refused(u64::from(cause.number()), text)
}
