// The search that reads least.
#![tactic(auto)]

mod candidates;
pub mod queries;
mod reading;

ghost use Rattle.std.specs.Prelude.{◌≡◌, ◌++◌, ◌≤◌, IfSome, length, take, drop};
ghost use Rattle.refusal.specs.First.{first};
ghost use Rattle.distance.specs.Values.{values_from};
ghost use Rattle.table.specs.Table.{bound_sum};
ghost use Rattle.bounds.specs.Sums.{sum_causes};
ghost use Rattle.search.specs.Search.{low_in, search_causes};
ghost use Rattle.search.specs.Ready.{index_of, query_of, room_of, Ready};
ghost use Rattle.least_reading.specs.Prepared.{library_of, asked_of, Prepared};
ghost use Rattle.least_reading.specs.Searching.{Searches, cell_causes};
ghost use Rattle.least_reading.specs.Unpacked.{Unpacked};

use crate::reading::{Task, read_in_order};
use bounds::regions::sum_regions;
use bounds::sum::sum_bounds;
use entries::entries_of;
use limits::{MAX_NEIGHBOURS, MAX_VECTORS};
use refusal::Refusal;
use search::entry::check_entry;
use search::{Found, Terms};
use step::Bound;
use table::{MAX_TABLE, fill_table};

// The k nearest of n vectors, and the numbers of the vectors that were read, in reading order, with how many those are. What is not
// written of `reads` keeps its content, and a refusal changes nothing.
pub fn nearest_by_bounds(
    terms: Terms,
    query: &[i32],
    marks: &[i32],
    codes: &[u8],
    vectors: &[i32],
    entries: usize,
    reads: &mut [u32],
) -> Result<Found, Refusal>
    ensures { let l = index_of terms marks.now codes.now vectors.now in
        let room = room_of entries (length reads.old) in
        let q = query_of terms query.now in
        Searches (first (search_causes l q terms.k room)) l q terms.k result
        reads.old reads.new }
{
    check_entry(terms, query, marks, codes, vectors, entries, reads.len())?;
    search_ready(terms, query, marks, codes, vectors, None, reads)
}

// The search where nothing refuses at its entry, in arrays for the most vectors of a library. The region numbers that the codes name are
// handed in where they are unpacked.
pub(crate) fn search_ready(
    terms: Terms,
    query: &[i32],
    marks: &[i32],
    codes: &[u8],
    vectors: &[i32],
    regions: Option<&[u8]>,
    reads: &mut [u32],
) -> Result<Found, Refusal>
    requires { let l = index_of terms marks.now codes.now vectors.now in
        (Ready l (query_of terms query.now) terms.k) × (length reads.old ≡ terms.n)
        × (IfSome regions (λ r. Unpacked terms.d terms.b terms.n codes.now r.now)) }
    ensures { let l = index_of terms marks.now codes.now vectors.now in
        let q = query_of terms query.now in
        Searches (first (cell_causes l q terms.k)) l q terms.k result
        reads.old reads.new }
{
    let task = Task {
        terms,
        factors: presence::factors_of(terms.word),
        query,
        marks,
        codes,
        vectors,
    };
    let n = terms.n;
    let mut lows = [0u64; MAX_VECTORS];
    lower_bounds(&task, regions, &mut lows[..n]);
    let mut order = [0u32; MAX_VECTORS];
    let mut words = [0u64; MAX_VECTORS];
    search_bounded(
        &task,
        &mut lows[..n],
        &mut order[..n],
        &mut words[..n],
        reads,
    )
}

// The same with the lower bounds. Nothing is written where a vector that is read refuses.
#[inline(never)]
fn search_bounded(
    task: &Task,
    lows: &mut [u64],
    order: &mut [u32],
    words: &mut [u64],
    reads: &mut [u32],
) -> Result<Found, Refusal>
    requires fact { (Prepared task.now) × (length order.old ≡ task.now.terms.n)
        × (length words.old ≡ task.now.terms.n) × (length reads.old ≡ task.now.terms.n) }
    requires lows_value { lows.old
        ≡ values_from (low_in (library_of task.now) (asked_of task.now)) 0 task.now.terms.n }
    ensures { let l = library_of task.now in let q = asked_of task.now in
        Searches (first (cell_causes l q task.now.terms.k)) l q task.now.terms.k result
        reads.old reads.new }
{
    let k = task.terms.k;
    let mut best = [0u32; MAX_NEIGHBOURS];
    let count = read_in_order(task, lows, order, words, &mut best[..k])?;
    put_numbers(order, count, reads);
    Ok(Found {
        entries: entries_of(&words[..k], &best[..k]),
        count,
    })
}

// The lower bounds of the codes' cells. Their table and the arrays of `search_bounded` are on the stack one after the other, since the
// compiler joins neither function with `search_ready`.
#[inline(never)]
fn lower_bounds(task: &Task, regions: Option<&[u8]>, lows: &mut [u64])
    requires { (Prepared task.now) × (length lows.old ≡ task.now.terms.n)
        × (IfSome regions (λ r. Unpacked task.now.terms.d task.now.terms.b task.now.terms.n task.now.codes.now r.now)) }
    ensures { lows.new
        ≡ values_from (low_in (library_of task.now) (asked_of task.now)) 0 task.now.terms.n }
{
    let d = task.terms.d;
    let b = task.terms.b;
    let factors = task.factors;
    let size = task.marks.len();
    let mut table = [0u64; MAX_TABLE];
    fill_table(
        Bound::Lower,
        d,
        b,
        task.marks,
        factors,
        task.query,
        &mut table[..size],
    );
    sum_lows(d, b, &table[..size], task.codes, regions, lows);
}

// The sums of a table's entries, of the region numbers where they are unpacked, and of the codes where they are not.
fn sum_lows(
    d: usize,
    b: usize,
    table: &[u64],
    codes: &[u8],
    regions: Option<&[u8]>,
    lows: &mut [u64],
)
    requires { (first (sum_causes d b (length table.now) codes.now (length lows.old)) ≡ Ok tt)
        × (IfSome regions (λ r. Unpacked d b (length lows.old) codes.now r.now)) }
    ensures { lows.new
        ≡ values_from (bound_sum d b table.now codes.now) 0 (length lows.old) }
{
    // Nothing refuses: the caller says that the codes can be summed, and so can the region numbers that they name.
    match regions {
        Some(numbers) => {
            let _ = sum_regions(d, b, table, numbers, lows);
        }
        None => {
            let _ = sum_bounds(d, b, table, codes, lows);
        }
    }
}

// Writes the first numbers over the first of a buffer.
fn put_numbers(numbers: &[u32], count: usize, out: &mut [u32])
    requires { (count ≤ length numbers.now) × (count ≤ length out.old) }
    ensures { out.new ≡ take count numbers.now ++ drop count out.old }
{
    for i in 0..count {
        out[i] = numbers[i];
    }
}
