// Distances, for C. Each gives 0, or the refusal's number; a refused call leaves what it was to write as it was.
ghost use Rattle.std.specs.Prelude.{◌≡◌, length};
ghost use Rattle.refusal.specs.Refusal.{status_of};
ghost use Rattle.refusal.specs.First.{first, outcome};
ghost use Rattle.presence.specs.Presence.{factors_of};
ghost use Rattle.distance.specs.Distance.{distance_of};
ghost use Rattle.distance.specs.Bounds.{weighed_lower, weighed_upper};
ghost use Rattle.distance.specs.Measured.{distance_causes};
ghost use Rattle.distance.specs.Values.{values_from};
ghost use Rattle.bounds.specs.Bounded.{bounds_causes};

// The distance of a vector from a query, of as many components as the query has.
#[unsafe(no_mangle)]
pub extern "C" fn matcher_distance(query: &[i32], vector: &[i32], distance: &mut u64) -> u32
    ensures { let v = first (distance_causes query.now vector.now) in
        let between = distance_of (length query.now) query.now vector.now in
        (result ≡ status_of v) × (distance.new ≡ outcome v between (λ _. distance.old)) }
{
    c_answers::put_distance(distance::measure(query, vector), distance)
}

// The least and the greatest distance of each of n codes' cells from a query over the dimensions that are present, in a buffer each.
#[unsafe(no_mangle)]
pub extern "C" fn matcher_bounds(
    d: usize,
    b: usize,
    n: usize,
    word: u32,
    query: &[i32],
    marks: &[i32],
    codes: &[u8],
    lowers: &mut [u64],
    uppers: &mut [u64],
) -> u32
    ensures { let v = first (bounds_causes d b n word query.now marks.now codes.now
        (length lowers.old) (length uppers.old)) in
        let lower = weighed_lower d b marks.now codes.now (factors_of word) query.now in
        let upper = weighed_upper d b marks.now codes.now (factors_of word) query.now in
        (result ≡ status_of v)
        × (lowers.new ≡ outcome v (values_from lower 0 n) (λ _. lowers.old))
        × (uppers.new ≡ outcome v (values_from upper 0 n) (λ _. uppers.old)) }
{
    refusal::status(bounds::cell::cell_bounds(d, b, n, word, query, marks, codes, lowers, uppers))
}
