// The queries of a batch, one after the other, in a library that is tested once.
ghost use Rattle.std.specs.Prelude.{◌≡◌, ◌*◌, ◌≤◌, ◌<◌, length};
ghost use Rattle.refusal.specs.First.{first};
ghost use Rattle.limits.specs.Limits.{max_dimensions, max_vectors};
ghost use Rattle.batch.specs.Batch.{batch_of, batch_answers, batch_entries, batch_reads};
ghost use Rattle.batch.specs.BatchCauses.{lengths_of, batch_causes};
ghost use Rattle.batch.specs.Accepted.{Batched};
ghost use Rattle.search.specs.Ready.{index_of, query_of};
ghost use Rattle.least_reading.specs.Searching.{Searches};
ghost use Rattle.least_reading.specs.Unpacked.{Unpacked, RegionsIn};
ghost use Rattle.least_reading.specs.Turned.{Tested, own_causes, Turned};

use crate::search_ready;
use batch::{Answer, BatchLengths, BatchTerms, answer_of, check_batch, check_query};
use entries::Entry;
use entries::fill::fill;
use limits::{MAX_DIMENSIONS, MAX_VECTORS};
use refusal::Refusal;
use search::{Found, Terms};

// The most region numbers of a library.
const MAX_REGIONS: usize = MAX_VECTORS * MAX_DIMENSIONS;

// The k nearest of n vectors to each of m queries, and the numbers of the vectors that were read for it, in reading order. Each query has its
// part of the buffers: d components, its presence word, its answer, k entries, a read list of n. A refusal of the batch changes nothing,
// and one of a query leaves its entries and its read list as they were.
pub fn search_batch(
    terms: BatchTerms,
    queries: &[i32],
    words: &[u32],
    marks: &[i32],
    codes: &[u8],
    vectors: &[i32],
    answers: &mut [Answer],
    entries: &mut [Entry],
    reads: &mut [u32],
) -> Result<(), Refusal>
    ensures { let batch = batch_of terms queries.now words.now marks.now codes.now
        vectors.now in
        let lengths = lengths_of batch (length answers.old) (length entries.old) (length reads.old) in
        let v = first (batch_causes terms lengths marks.now codes.now) in
        (result ≡ v)
        × (answers.new ≡ batch_answers v batch answers.old)
        × (entries.new ≡ batch_entries v batch entries.old)
        × (reads.new ≡ batch_reads v batch reads.old) }
{
    let lengths = BatchLengths {
        queries: queries.len(),
        words: words.len(),
        vectors: vectors.len(),
        answers: answers.len(),
        entries: entries.len(),
        reads: reads.len(),
    };
    check_batch(terms, lengths, marks, codes)?;
    let mut regions = [0u8; MAX_REGIONS];
    put_regions(terms, codes, &mut regions);
    for i in 0..terms.m {
        let answer = answer_query(
            terms, i, queries, words, marks, codes, vectors, &regions, entries, reads,
        );
        answers[i] = answer_of(answer);
    }
    Ok(())
}

// The region numbers that the codes name, at the front of an array, so that they are unpacked once a batch.
fn put_regions(terms: BatchTerms, codes: &[u8], regions: &mut [u8])
    requires { length regions.old ≡ max_vectors * max_dimensions }
    ensures { RegionsIn terms.d terms.b terms.n codes.now regions.new }
{
    let count = region_count(terms.d, terms.n);
    // Where the codes can be unpacked nothing refuses, and elsewhere nothing is said of the array.
    let _ = codes::unpack(terms.d, terms.b, terms.n, codes, &mut regions[..count]);
}

// How many region numbers there are, 0 where the numbers are past their limits.
fn region_count(d: usize, n: usize) -> usize
    ensures { (result ≤ max_vectors * max_dimensions) × (d ≤ max_dimensions → n ≤ max_vectors → result ≡ n * d) }
{
    if MAX_DIMENSIONS < d {
        return 0;
    }
    if MAX_VECTORS < n {
        return 0;
    }
    n * d
}

// Searches for query i, whose entries and read list are written to their parts; how many vectors were read.
fn answer_query(
    terms: BatchTerms,
    i: usize,
    queries: &[i32],
    words: &[u32],
    marks: &[i32],
    codes: &[u8],
    vectors: &[i32],
    regions: &[u8; MAX_REGIONS],
    entries: &mut [Entry],
    reads: &mut [u32],
) -> Result<usize, Refusal>
    requires { (Batched (batch_of terms queries.now words.now marks.now codes.now vectors.now)) × (i < terms.m)
        × (length entries.old ≡ terms.m * terms.k) × (length reads.old ≡ terms.m * terms.n)
        × (RegionsIn terms.d terms.b terms.n codes.now regions.now) }
    ensures { Turned (batch_of terms queries.now words.now marks.now codes.now
        vectors.now) i result entries.old entries.new reads.old reads.new }
{
    let d = terms.d;
    let n = terms.n;
    let k = terms.k;
    let word = words[i];
    let one = Terms {
        d,
        b: terms.b,
        n,
        k,
        word,
    };
    let first = i * d;
    let place = i * n;
    let count = n * d;
    let found = search_tested(
        one,
        &queries[first..first + d],
        marks,
        codes,
        vectors,
        &regions[..count],
        &mut reads[place..place + n],
    )?;
    fill(entries, i * k, found.entries, k);
    Ok(found.count)
}

// The search in a library that is tested: what is left to test is the query.
fn search_tested(
    terms: Terms,
    query: &[i32],
    marks: &[i32],
    codes: &[u8],
    vectors: &[i32],
    regions: &[u8],
    reads: &mut [u32],
) -> Result<Found, Refusal>
    requires { let l = index_of terms marks.now codes.now vectors.now in
        (Tested l (query_of terms query.now) terms.k) × (length reads.old ≡ terms.n)
        × (Unpacked terms.d terms.b terms.n codes.now regions.now) }
    ensures { let l = index_of terms marks.now codes.now vectors.now in
        let q = query_of terms query.now in
        Searches (first (own_causes l q terms.k)) l q terms.k result reads.old reads.new }
{
    check_query(terms.d, terms.word, query)?;
    search_ready(terms, query, marks, codes, vectors, Some(regions), reads)
}
