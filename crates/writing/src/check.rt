// Whether a library can be written.
ghost use Rattle.std.specs.Prelude.{◌≡◌, true, [], ◌++◌, ◌+◌, ◌*◌, ◌^◌, ◌≤◌, pos, length, get_or, drop};
ghost use Rattle.refusal.specs.First.{first};
ghost use Rattle.limits.specs.Limits.{max_dimension_bits, max_vectors};
ghost use Rattle.library.specs.Each.{tabulate, every};
ghost use Rattle.library.specs.Library.{library_with, mark_total};
ghost use Rattle.library.specs.Tests.{inside};
ghost use Rattle.library.specs.Ends.{Table, between, first_mark, last_mark};
ghost use Rattle.writing.specs.Sized.{Sized};
ghost use Rattle.writing.specs.Write.{value_causes, shaped_causes};

use layout::Layout;
use library::lies;
use limits::MAX_DIMENSIONS;
use refusal::Refusal;

// The first cause for which a library of this layout cannot be written to so many bytes.
#[tactic(auto, using(std::proofs::lemmas::Bool::Decides::nat_tests), unfolding(refusal::specs::First::first))]
pub(crate) fn check_library(
    layout: Layout,
    n: usize,
    marks: &[i32],
    settings: &[u32],
    components: &[i32],
    room: usize,
) -> Result<(), Refusal>
    ensures { result
        ≡ first (shaped_causes (library_with layout.d layout.b n marks.now settings.now components.now) room) }
{
    if !limits::is_vector_count(n) {
        return Err(Refusal::Count);
    }
    if marks.len() != layout.marks_length() {
        return Err(Refusal::Length);
    }
    if settings.len() != n {
        return Err(Refusal::Length);
    }
    if components.len() != n * layout.d {
        return Err(Refusal::Length);
    }
    if room != library::length(layout, n) {
        return Err(Refusal::Length);
    }
    check_values(layout, n, marks, components)
}

// The first cause of the components, the marks, and the vectors against the marks.
#[tactic(auto, unfolding(refusal::specs::First::first))]
fn check_values(layout: Layout, n: usize, marks: &[i32], components: &[i32]) -> Result<(), Refusal>
    requires { Sized layout.d layout.b n marks.now components.now }
    ensures { result
        ≡ first (value_causes (library_with layout.d layout.b n marks.now [] components.now)) }
{
    if !signed::components::are_components(components) {
        return Err(Refusal::Component);
    }
    let Ok(()) = partition::check_marks(layout.d, layout.b, marks) else {
        return Err(Refusal::Mark);
    };
    if !all_inside(layout, n, marks, components) {
        return Err(Refusal::Outside);
    }
    Ok(())
}

// Whether every vector lies inside the marks. Each component is held against the ends of its dimension's marks, which are looked up once.
fn all_inside(layout: Layout, n: usize, marks: &[i32], components: &[i32]) -> bool
    requires { Sized layout.d layout.b n marks.now components.now }
    ensures { result
        ≡ every n (λ i. inside layout.d layout.b marks.now (λ t. get_or components.now (i * layout.d + t) (pos 0))) }
{
    let mut lows = [0i32; MAX_DIMENSIONS];
    let mut highs = [0i32; MAX_DIMENSIONS];
    fill_ends(layout, marks, &mut lows, &mut highs);
    all_between(layout.d, n, &lows, &highs, components)
}

// The first and the last mark of each dimension are copied into the fronts of two buffers.
fn fill_ends(layout: Layout, marks: &[i32], lows: &mut [i32], highs: &mut [i32])
    requires { (length marks.now ≡ mark_total layout.d layout.b)
        × (layout.d ≤ length lows.old)
        × (layout.d ≤ length highs.old) }
    ensures lows_after { lows.new
        ≡ tabulate layout.d (first_mark layout.d layout.b (λ i. get_or marks.now i (pos 0)))
        ++ drop layout.d lows.old }
    ensures highs_after { highs.new
        ≡ tabulate layout.d (last_mark layout.d layout.b (λ i. get_or marks.now i (pos 0)))
        ++ drop layout.d highs.old }
{
    for t in 0..layout.d {
        let stretch = layout.stretch(t + 1);
        let first = stretch.offset;
        let last = first + regions(stretch.bits);
        lows[t] = signed::at(marks, first);
        highs[t] = signed::at(marks, last);
    }
}

// The number of regions of a dimension with w bits.
fn regions(w: usize) -> usize
    requires { w ≤ max_dimension_bits }
    ensures { result ≡ 2 ^ w }
{
    1usize << w
}

// Whether each of n vectors lies between the ends of the marks.
fn all_between(d: usize, n: usize, lows: &[i32], highs: &[i32], components: &[i32]) -> bool
    requires { (Table d lows.now highs.now) × (n ≤ max_vectors) × (n * d ≤ length components.now) }
    ensures { result
        ≡ every n (λ i. between d lows.now highs.now (λ t. get_or components.now (i * d + t) (pos 0))) }
{
    (0..n).all(|i| is_between(d, lows, highs, components, i * d))
}

// Whether the d components from an index on lie, each, between the ends of their dimension's marks. Every component is looked at, whatever
// the ones before it gave, so that the loop has no branch.
fn is_between(d: usize, lows: &[i32], highs: &[i32], components: &[i32], from: usize) -> bool
    requires { (Table d lows.now highs.now) × (from + d ≤ length components.now) }
    ensures { result ≡ between d lows.now highs.now (λ t. get_or components.now (from + t) (pos 0)) }
{
    let mut inside = true;
    for t in 0..d {
        inside &= lies(lows[t], components[from + t], highs[t]);
    }
    inside
}
