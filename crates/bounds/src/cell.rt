// The bounds of codes' cells.
ghost use Rattle.std.specs.Prelude.{◌≡◌, ◌≤◌, ◌&&◌, length, ◌==◌};
ghost use Rattle.refusal.specs.First.{first, outcome};
ghost use Rattle.limits.specs.Limits.{max_vectors};
ghost use Rattle.presence.specs.Presence.{factors_of};
ghost use Rattle.layout.specs.Layout.{first_marks, code_length};
ghost use Rattle.distance.specs.Bounds.{weighed_bound, weighed_lower, weighed_upper};
ghost use Rattle.distance.specs.Small.{Factors};
ghost use Rattle.distance.specs.Values.{values_from};
ghost use Rattle.step.specs.Step.{step_of};
ghost use Rattle.bounds.specs.Bounded.{Bounding, bounds_causes, shaped_bounds_causes};

use crate::sum::sum_all;
use layout::Layout;
use limits::MAX_DIMENSIONS;
use presence::{check_word, factors_of};
use refusal::Refusal;
use step::Bound;
use table::{MAX_TABLE, fill_table};

// The bounds of n codes' cells over the dimensions that are present: the least distances in one buffer, the greatest in the other.
#[tactic(auto, using(refusal::specs::First::handed_on), unfolding(refusal::specs::First::first))]
pub fn cell_bounds(
    d: usize,
    b: usize,
    n: usize,
    word: u32,
    query: &[i32],
    marks: &[i32],
    codes: &[u8],
    lowers: &mut [u64],
    uppers: &mut [u64],
) -> Result<(), Refusal>
    ensures value { result ≡ first (bounds_causes d b n word query.now marks.now codes.now
        (length lowers.old) (length uppers.old)) }
    ensures lowers_after { lowers.new
        ≡ outcome (first (bounds_causes d b n word query.now marks.now codes.now
        (length lowers.old) (length uppers.old)))
        (values_from (weighed_lower d b marks.now codes.now (factors_of word) query.now) 0 n)
        (λ _. lowers.old) }
    ensures uppers_after { uppers.new
        ≡ outcome (first (bounds_causes d b n word query.now marks.now codes.now
        (length lowers.old) (length uppers.old)))
        (values_from (weighed_upper d b marks.now codes.now (factors_of word) query.now) 0 n)
        (λ _. uppers.old) }
{
    let layout = Layout::new(d, b)?;
    check_bounds(
        layout,
        n,
        word,
        query,
        marks,
        codes,
        lowers.len(),
        uppers.len(),
    )?;
    let factors = factors_of(word);
    fill_bounds(Bound::Lower, layout, factors, query, marks, codes, lowers);
    fill_bounds(Bound::Upper, layout, factors, query, marks, codes, uppers);
    Ok(())
}

// Whether there are such bounds, in buffers of these lengths, where d and b are within their limits.
#[tactic(auto, using(refusal::specs::First::handed_on), unfolding(refusal::specs::First::first))]
fn check_bounds(
    layout: Layout,
    n: usize,
    word: u32,
    query: &[i32],
    marks: &[i32],
    codes: &[u8],
    lowers: usize,
    uppers: usize,
) -> Result<(), Refusal>
    ensures { result
        ≡ first (shaped_bounds_causes layout.d layout.b n word query.now marks.now codes.now lowers uppers) }
{
    if !limits::is_vector_count(n) {
        return Err(Refusal::Count);
    }
    check_word(layout.d, word)?;
    if !exact_lengths(layout, n, query.len(), marks.len(), codes.len()) {
        return Err(Refusal::Length);
    }
    if lowers != n || uppers != n {
        return Err(Refusal::Length);
    }
    if !signed::components::are_components(query) {
        return Err(Refusal::Component);
    }
    cells::check_codes(layout.d, layout.b, n, marks, codes)
}

// Whether the query, the marks and the codes are as many as they must be.
pub(crate) fn exact_lengths(
    layout: Layout,
    n: usize,
    query: usize,
    marks: usize,
    codes: usize,
) -> bool
    requires { n ≤ max_vectors }
    ensures { result
        ≡ (query == layout.d) && (marks == first_marks layout.d layout.b layout.d && codes == code_length layout.b n) }
{
    query == layout.d && marks == layout.marks_length() && codes == layout.codes_length(n)
}

// One of the bounds of each code's cell, where nothing refuses.
fn fill_bounds(
    bound: Bound,
    layout: Layout,
    factors: [u32; MAX_DIMENSIONS],
    query: &[i32],
    marks: &[i32],
    codes: &[u8],
    bounds: &mut [u64],
)
    requires { (Bounding layout.d layout.b (length bounds.old) query.now marks.now codes.now) × (Factors factors) }
    ensures { bounds.new
        ≡ values_from (weighed_bound (step_of bound) layout.d layout.b marks.now codes.now factors query.now)
        0 (length bounds.old) }
{
    let length = marks.len();
    let mut table = [0u64; MAX_TABLE];
    fill_table(
        bound,
        layout.d,
        layout.b,
        marks,
        factors,
        query,
        &mut table[..length],
    );
    sum_all(layout, &table[..length], codes, bounds);
}
