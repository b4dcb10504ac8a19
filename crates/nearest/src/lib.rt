// The nearest vectors as entries: the full scan and the search as other programs call them. Each is thin over its covered core.
#![tactic(auto)]

ghost use Rattle.std.specs.Prelude.{◌≡◌, length};
ghost use Rattle.refusal.specs.First.{first};
ghost use Rattle.scan.specs.Scanning.{scan_causes, scanned_entries};
ghost use Rattle.search.specs.Search.{search_causes};
ghost use Rattle.search.specs.Answer.{search_answer, search_entries, search_reads};
ghost use Rattle.search.specs.Ready.{index_of, query_of, room_of};

use entries::Entry;
use entries::fill::fill;
use refusal::Refusal;
use scan::ScanTerms;
use search::Terms;

// The k of n vectors that are nearest to a query of d components, nearest first, ties by lower number. The vectors stand in a row.
pub fn scan(
    terms: ScanTerms,
    query: &[i32],
    vectors: &[i32],
    entries: &mut [Entry],
) -> Result<(), Refusal>
    ensures { let v = first (scan_causes terms query.now vectors.now (length entries.old)) in
        (result ≡ v) × (entries.new ≡ scanned_entries v terms query.now vectors.now entries.old) }
{
    let found = scan::nearest_by_scan(terms, query, vectors, entries.len())?;
    fill(entries, 0, found, terms.k);
    Ok(())
}

// The same by the search, and the numbers of the vectors that were read, in reading order; the answer is how many those are. What is not
// written of `reads` keeps its content, and a refusal changes nothing.
pub fn search(
    terms: Terms,
    query: &[i32],
    marks: &[i32],
    codes: &[u8],
    vectors: &[i32],
    entries: &mut [Entry],
    reads: &mut [u32],
) -> Result<usize, Refusal>
    ensures { let l = index_of terms marks.now codes.now vectors.now in
        let q = query_of terms query.now in
        let v = first (search_causes l q terms.k (room_of (length entries.old) (length reads.old))) in
        (result ≡ search_answer v l q terms.k)
        × (entries.new ≡ search_entries v l q terms.k entries.old)
        × (reads.new ≡ search_reads v l q terms.k reads.old) }
{
    let found = least_reading::nearest_by_bounds(
        terms,
        query,
        marks,
        codes,
        vectors,
        entries.len(),
        reads,
    )?;
    fill(entries, 0, found.entries, terms.k);
    Ok(found.count)
}
