// The region numbers of vectors under given marks, and the codes made of them.
#![tactic(auto)]

ghost use Rattle.std.specs.Prelude.{◌≡◌, cond, ◌+◌, ◌^◌, ◌≤◌, ◌<◌, ltb, eqb, length, take};
ghost use Rattle.refusal.specs.First.{first, outcome};
ghost use Rattle.limits.specs.Limits.{max_dimension_bits};
ghost use Rattle.layout.specs.Layout.{first_marks};
ghost use Rattle.codes.specs.Codes.{next_column};
ghost use Rattle.codes.specs.Pack.{size_causes};
ghost use Rattle.approximation.specs.Vectors.{vector_regions, vectors_inside, vector_codes};
ghost use Rattle.approximation.specs.VectorCauses.{locate_causes, inside_causes, regions_causes, pack_vectors_causes, Inside};

use codes::{check_sizes, pack};
use layout::Layout;
use limits::{MAX_DIMENSIONS, MAX_VECTORS};
use refusal::Refusal;
use region::{in_marks, locate};

// The region numbers of n vectors of d components that stand in a row. Refused are numbers of dimensions, bits or vectors out of their
// limits, buffers of other lengths, components or marks out of range, marks that fall, and a component outside its dimension's marks.
#[tactic(auto, using(refusal::specs::First::handed_on), unfolding(refusal::specs::First::first))]
pub fn regions(
    d: usize,
    b: usize,
    n: usize,
    vectors: &[i32],
    marks: &[i32],
    regions: &mut [u8],
) -> Result<(), Refusal>
    ensures value { result ≡ first (regions_causes d b n vectors.now marks.now (length regions.old)) }
    ensures regions_after { regions.new
        ≡ outcome (first (regions_causes d b n vectors.now marks.now (length regions.old)))
        (vector_regions d b marks.now vectors.now) (λ _. regions.old) }
{
    let layout = Layout::new(d, b)?;
    if !limits::is_vector_count(n) {
        return Err(Refusal::Count);
    }
    if vectors.len() != n * d || regions.len() != n * d {
        return Err(Refusal::Length);
    }
    check_located(layout, vectors, marks)?;
    locate_all(layout, vectors, marks, regions);
    Ok(())
}

// The codes of n vectors. Refused is what `regions` refuses, with the codes' length in place of the region numbers'.
#[tactic(auto, using(refusal::specs::First::handed_on), unfolding(refusal::specs::First::first))]
pub fn pack_vectors(
    d: usize,
    b: usize,
    n: usize,
    vectors: &[i32],
    marks: &[i32],
    codes: &mut [u8],
) -> Result<(), Refusal>
    ensures value { result ≡ first (pack_vectors_causes d b n vectors.now marks.now (length codes.old)) }
    ensures codes_after { codes.new
        ≡ outcome (first (pack_vectors_causes d b n vectors.now marks.now (length codes.old)))
        (vector_codes d b n marks.now vectors.now) (λ _. codes.old) }
{
    let layout = Layout::new(d, b)?;
    check_sizes(d, b, n, vectors.len(), codes.len())?;
    check_located(layout, vectors, marks)?;
    put_vectors(layout, n, vectors, marks, codes);
    Ok(())
}

// Whether vectors, however many, lie inside the marks. Refused are numbers of dimensions or bits out of their limits, marks of another
// length, components or marks out of range, marks that fall, and a component outside its dimension's marks.
#[tactic(auto, using(refusal::specs::First::handed_on), unfolding(refusal::specs::First::first))]
pub fn check_vectors(d: usize, b: usize, vectors: &[i32], marks: &[i32]) -> Result<(), Refusal>
    ensures { result ≡ first (inside_causes d b vectors.now marks.now) }
{
    let layout = Layout::new(d, b)?;
    check_located(layout, vectors, marks)
}

// Whether the marks are of the right length, components and marks good, and each component inside its dimension's marks.
#[tactic(auto, using(refusal::specs::First::handed_on), unfolding(refusal::specs::First::first))]
fn check_located(layout: Layout, vectors: &[i32], marks: &[i32]) -> Result<(), Refusal>
    ensures { result ≡ first (locate_causes layout.d layout.b vectors.now marks.now) }
{
    if marks.len() != layout.marks_length() {
        return Err(Refusal::Length);
    }
    if !signed::components::are_components(vectors) {
        return Err(Refusal::Component);
    }
    partition::check_marks(layout.d, layout.b, marks)?;
    if !vectors_inside(layout, vectors, marks) {
        return Err(Refusal::Outside);
    }
    Ok(())
}

// Whether each component lies inside its dimension's marks.
fn vectors_inside(layout: Layout, vectors: &[i32], marks: &[i32]) -> bool
    requires { length marks.now ≡ first_marks layout.d layout.b layout.d }
    ensures { result ≡ vectors_inside layout.d layout.b marks.now vectors.now }
{
    let fewest = 1usize << layout.fewest();
    let more = layout.wider();
    let mut column = 0;
    let mut offset = 0;
    for z in vectors {
        let end = offset + column_regions(fewest, more, column) + 1;
        if !in_marks(&marks[offset..end], *z) {
            return false;
        }
        column = column_behind(layout.d, column);
        offset = next_offset(column, end);
    }
    true
}

// The region number of each component, at the front of the buffer.
fn locate_all(layout: Layout, vectors: &[i32], marks: &[i32], regions: &mut [u8])
    requires { (Inside layout.d layout.b marks.now vectors.now) × (length vectors.now ≤ length regions.old) }
    ensures { take (length vectors.now) regions.new
        ≡ vector_regions layout.d layout.b marks.now vectors.now }
{
    let fewest = 1usize << layout.fewest();
    let more = layout.wider();
    let mut column = 0;
    let mut offset = 0;
    for (i, z) in vectors.iter().enumerate() {
        let end = offset + column_regions(fewest, more, column) + 1;
        regions[i] = locate(&marks[offset..end], *z) as u8;
        column = column_behind(layout.d, column);
        offset = next_offset(column, end);
    }
}

// How many regions a column's dimension has, where each has the fewest and the first ones twice as many. This and the next two have one
// test each, so that the lookups of neighbouring components need not wait for each other.
fn column_regions(fewest: usize, more: usize, column: usize) -> usize
    requires { fewest ≤ 2 ^ max_dimension_bits }
    ensures { result ≡ cond (ltb column more) (fewest + fewest) fewest }
{
    if column < more {
        fewest + fewest
    } else {
        fewest
    }
}

// The column behind one of d columns, the first behind the last.
fn column_behind(d: usize, column: usize) -> usize
    requires { column < d }
    ensures { result ≡ next_column d column }
{
    let next = column + 1;
    if next == d { 0 } else { next }
}

// Where the marks of a column's dimension begin: the first's at the front, another's where those before them end.
fn next_offset(column: usize, end: usize) -> usize
    ensures { result ≡ cond (eqb column 0) 0 end }
{
    if column == 0 { 0 } else { end }
}

// The codes, where nothing refuses: the region numbers are packed. Their array is on the stack here alone, and not beside what a search works
// in, since the compiler does not join this function with its callers.
#[inline(never)]
fn put_vectors(layout: Layout, n: usize, vectors: &[i32], marks: &[i32], codes: &mut [u8])
    requires { (first (size_causes layout.d layout.b n (length vectors.now) (length codes.old)) ≡ Ok tt)
        × (Inside layout.d layout.b marks.now vectors.now) }
    ensures { codes.new ≡ vector_codes layout.d layout.b n marks.now vectors.now }
{
    let mut regions = [0u8; MAX_VECTORS * MAX_DIMENSIONS];
    let count = vectors.len();
    locate_all(layout, vectors, marks, &mut regions);
    pack(layout.d, layout.b, n, &regions[..count], codes).unwrap();
}
