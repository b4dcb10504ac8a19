// The nearest vectors, for C. Each gives 0, or the refusal's number; a refused call leaves the buffers as they were, and its count is 0.
ghost use Rattle.std.specs.Prelude.{◌≡◌, length};
ghost use Rattle.refusal.specs.Refusal.{status_of};
ghost use Rattle.refusal.specs.First.{first, outcome};
ghost use Rattle.batch.specs.Batch.{batch_terms, batch_of, batch_answers, batch_entries, batch_reads};
ghost use Rattle.batch.specs.BatchCauses.{lengths_of, batch_causes};
ghost use Rattle.scan.specs.Scanning.{scan_terms, scan_causes, scanned_entries};
ghost use Rattle.search.specs.Search.{searched, search_causes};
ghost use Rattle.search.specs.Answer.{search_entries, search_reads};
ghost use Rattle.search.specs.Ready.{index_of, query_of, terms_of, room_of};

use batch::{Answer, BatchTerms};
use entries::Entry;
use scan::ScanTerms;
use search::Terms;

// The k of n vectors that are nearest to a query, by all their distances over the dimensions that are present.
#[unsafe(no_mangle)]
pub extern "C" fn matcher_scan(
    d: usize,
    n: usize,
    k: usize,
    word: u32,
    query: &[i32],
    vectors: &[i32],
    entries: &mut [Entry],
) -> u32
    ensures { let t = scan_terms d n k word in
        let v = first (scan_causes t query.now vectors.now (length entries.old)) in
        (result ≡ status_of v) × (entries.new ≡ scanned_entries v t query.now vectors.now
        entries.old) }
{
    let terms = ScanTerms { d, n, k, word };
    let verdict = nearest::scan(terms, query, vectors, entries);
    refusal::status(verdict)
}

// The same by the search; also the numbers of the vectors that it reads, in reading order, and their count.
#[unsafe(no_mangle)]
pub extern "C" fn matcher_search(
    d: usize,
    b: usize,
    n: usize,
    k: usize,
    word: u32,
    query: &[i32],
    marks: &[i32],
    codes: &[u8],
    vectors: &[i32],
    entries: &mut [Entry],
    reads: &mut [u32],
    count: &mut usize,
) -> u32
    ensures { let t = terms_of d b n k word in
        let l = index_of t marks.now codes.now vectors.now in
        let q = query_of t query.now in
        let v = first (search_causes l q k (room_of (length entries.old) (length reads.old))) in
        (result ≡ status_of v)
        × (count.new ≡ outcome v (length (searched l q k).reads) (λ _. 0))
        × (entries.new ≡ search_entries v l q k entries.old)
        × (reads.new ≡ search_reads v l q k reads.old) }
{
    let terms = Terms { d, b, n, k, word };
    let answer = nearest::search(terms, query, marks, codes, vectors, entries, reads);
    c_answers::put_read_count(answer, count)
}

// The nearest vectors to each of m queries by the search. Query i has part i of the buffers: d components, a presence word, an answer,
// k entries and a read list of n.
#[unsafe(no_mangle)]
pub extern "C" fn matcher_batch(
    d: usize,
    b: usize,
    n: usize,
    k: usize,
    m: usize,
    queries: &[i32],
    words: &[u32],
    marks: &[i32],
    codes: &[u8],
    vectors: &[i32],
    answers: &mut [Answer],
    entries: &mut [Entry],
    reads: &mut [u32],
) -> u32
    ensures { let t = batch_terms d b n k m in
        let batch = batch_of t queries.now words.now marks.now codes.now
        vectors.now in
        let lengths = lengths_of batch (length answers.old) (length entries.old) (length reads.old) in
        let v = first (batch_causes t lengths marks.now codes.now) in
        (result ≡ status_of v)
        × (answers.new ≡ batch_answers v batch answers.old)
        × (entries.new ≡ batch_entries v batch entries.old)
        × (reads.new ≡ batch_reads v batch reads.old) }
{
    let terms = BatchTerms { d, b, n, k, m };
    let verdict = least_reading::queries::search_batch(
        terms, queries, words, marks, codes, vectors, answers, entries, reads,
    );
    refusal::status(verdict)
}
