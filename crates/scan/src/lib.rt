// The full scan: the vectors nearest to a query, by all their distances over the dimensions that are present.
#![tactic(auto)]

ghost use Rattle.std.specs.Prelude.{◌≡◌, ◌&&◌, ◌*◌, ◌≤◌, eqb, length, Ok, Err, IfOk, IfErr};
ghost use Rattle.refusal.specs.First.{first};
ghost use Rattle.limits.specs.Limits.{max_dimensions, max_vectors};
ghost use Rattle.limits.specs.Tests.{Neighbours};
ghost use Rattle.presence.specs.Presence.{factors_of};
ghost use Rattle.signed.specs.Components.{are_components};
ghost use Rattle.distance.specs.Small.{Factors};
ghost use Rattle.distance.specs.Values.{values_from};
ghost use Rattle.entries.specs.Entries.{entries_of, in_array};
ghost use Rattle.scan.specs.Scanning.{distances_of, scan_answer, scan_causes};
ghost use Rattle.scan.specs.Scanned.{Vectors};

use entries::{Entry, entries_of};
use limits::{MAX_DIMENSIONS, MAX_NEIGHBOURS, MAX_VECTORS};
use refusal::Refusal;

// The numbers of a scan: of dimensions, of vectors and of neighbours, and the query's presence word.
#[derive(Clone, Copy, Drop)]
pub struct ScanTerms {
    pub d: usize,
    pub n: usize,
    pub k: usize,
    pub word: u32,
}

// The k of n vectors that are nearest to a query of d components, nearest first, ties by lower number, where so many entries are lent for
// them: at the front of an array, with blank ones behind them. The vectors stand in a row.
pub fn nearest_by_scan(
    terms: ScanTerms,
    query: &[i32],
    vectors: &[i32],
    entries: usize,
) -> Result<[Entry; MAX_NEIGHBOURS], Refusal>
    ensures ok { IfOk result (λ found. (first (scan_causes terms query.now vectors.now entries) ≡ Ok tt)
        × (found ≡ in_array (entries_of (scan_answer terms query.now vectors.now)))) }
    ensures err { IfErr result (λ cause. first (scan_causes terms query.now vectors.now entries) ≡ Err cause) }
{
    check_scan(terms, query, vectors, entries)?;
    Ok(scan_ready(terms, query, vectors))
}

// Whether the vectors can be scanned, for so many entries.
#[tactic(auto, using(refusal::specs::First::handed_on), unfolding(refusal::specs::First::first))]
fn check_scan(
    terms: ScanTerms,
    query: &[i32],
    vectors: &[i32],
    entries: usize,
) -> Result<(), Refusal>
    ensures { result ≡ first (scan_causes terms query.now vectors.now entries) }
{
    if !limits::is_dimension_count(terms.d) {
        return Err(Refusal::Dimension);
    }
    if !limits::is_vector_count(terms.n) {
        return Err(Refusal::Count);
    }
    if !limits::is_neighbour_count(terms.n, terms.k) {
        return Err(Refusal::Neighbours);
    }
    presence::check_word(terms.d, terms.word)?;
    if !exact_lengths(terms, query.len(), vectors.len(), entries) {
        return Err(Refusal::Length);
    }
    if !all_components(query, vectors) {
        return Err(Refusal::Component);
    }
    Ok(())
}

// Whether the lengths of the query, the vectors and the entries are the exact ones.
fn exact_lengths(terms: ScanTerms, query: usize, vectors: usize, entries: usize) -> bool
    requires { (terms.d ≤ max_dimensions) × (terms.n ≤ max_vectors) }
    ensures { result ≡ eqb query terms.d && (eqb vectors (terms.n * terms.d) && eqb entries terms.k) }
{
    query == terms.d && vectors == terms.n * terms.d && entries == terms.k
}

// Whether the query's and the vectors' numbers are components.
fn all_components(query: &[i32], vectors: &[i32]) -> bool
    ensures { result ≡ are_components query.now && are_components vectors.now }
{
    signed::components::are_components(query) && signed::components::are_components(vectors)
}

// The answer where nothing refuses, in arrays for the most vectors of a library.
fn scan_ready(terms: ScanTerms, query: &[i32], vectors: &[i32]) -> [Entry; MAX_NEIGHBOURS]
    requires { (Vectors terms.d terms.n query.now vectors.now) × Neighbours terms.n terms.k }
    ensures { result ≡ in_array (entries_of (scan_answer terms query.now vectors.now)) }
{
    let n = terms.n;
    let factors = presence::factors_of(terms.word);
    let mut distances = [0u64; MAX_VECTORS];
    scan_into(terms, factors, query, vectors, &mut distances[..n])
}

// The same with the factors of the dimensions and room for the distances of all vectors.
fn scan_into(
    terms: ScanTerms,
    factors: [u32; MAX_DIMENSIONS],
    query: &[i32],
    vectors: &[i32],
    distances: &mut [u64],
) -> [Entry; MAX_NEIGHBOURS]
    requires { (Vectors terms.d terms.n query.now vectors.now) × (Neighbours terms.n terms.k)
        × (length distances.old ≡ terms.n) × (factors ≡ factors_of terms.word) }
    ensures { result ≡ in_array (entries_of (scan_answer terms query.now vectors.now)) }
{
    measure_all(terms.d, &factors, query, vectors, distances);
    let k = terms.k;
    let mut numbers = [0u32; MAX_NEIGHBOURS];
    let mut least = [0u64; MAX_NEIGHBOURS];
    let mut words = [0u64; MAX_NEIGHBOURS];
    // Nothing refuses: k is at most n, and the rooms are as long as the selection.
    let _ = least::select(distances, &mut numbers[..k], &mut least[..k], &mut words);
    entries_of(&least[..k], &numbers[..k])
}

// The distance of each vector from the query.
fn measure_all(
    d: usize,
    factors: &[u32; MAX_DIMENSIONS],
    query: &[i32],
    vectors: &[i32],
    keys: &mut [u64],
)
    requires { (Vectors d (length keys.old) query.now vectors.now) × (Factors factors.now) }
    ensures { keys.new ≡ values_from (distances_of d factors.now query.now vectors.now) 0
        (length keys.old) }
{
    for (i, key) in keys.iter_mut().enumerate() {
        let start = i * d;
        let end = start + d;
        *key = distance::weighed_distance(factors, query, &vectors[start..end]);
    }
}
