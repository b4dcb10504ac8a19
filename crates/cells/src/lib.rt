// The cells that codes name.
#![tactic(auto)]

mod places;
mod rising;

ghost use Rattle.std.specs.Prelude.{◌≡◌, ◌&&◌, ◌≤◌, ◌<◌, eqb, length};
ghost use Rattle.refusal.specs.First.{first};
ghost use Rattle.limits.specs.Limits.{max_vectors};
ghost use Rattle.layout.specs.Layout.{first_marks, code_length};
ghost use Rattle.cells.specs.Cells.{none_empty, no_empty_codes, good_codes};
ghost use Rattle.cells.specs.CellCauses.{code_causes};
ghost use Rattle.cells.specs.Places.{Small};
ghost use Rattle.cells.specs.CellLaws.{rise_at};

use crate::places::mark_places;
use crate::rising::all_rise;
use codes::bits::bits_at;
use layout::Layout;
use limits::MAX_DIMENSIONS;
use refusal::Refusal;
use signed::compare::is_below;

// Whether no code names an empty region and no spare bit is set, for codes and marks of the right lengths.
#[tactic(auto, using(refusal::specs::First::handed_on), unfolding(refusal::specs::First::first))]
pub fn check_codes(d: usize, b: usize, n: usize, marks: &[i32], codes: &[u8]) -> Result<(), Refusal>
    ensures { result ≡ first (code_causes d b n marks.now codes.now) }
{
    let layout = Layout::new(d, b)?;
    if !limits::is_vector_count(n) {
        return Err(Refusal::Count);
    }
    if !exact_lengths(layout, n, marks.len(), codes.len()) {
        return Err(Refusal::Length);
    }
    partition::check_marks(d, b, marks).map_err(|_| Refusal::Mark)?;
    if !good_codes(layout, n, marks, codes) {
        return Err(Refusal::Code);
    }
    Ok(())
}

// Whether the marks and the codes are as many as they must be.
fn exact_lengths(layout: Layout, n: usize, marks: usize, codes: usize) -> bool
    requires { n ≤ max_vectors }
    ensures { result ≡ eqb marks (first_marks layout.d layout.b layout.d) && eqb codes (code_length layout.b n) }
{
    marks == layout.marks_length() && codes == layout.codes_length(n)
}

// Whether none of n codes names an empty region, and no spare bit behind them is set.
fn good_codes(layout: Layout, n: usize, marks: &[i32], codes: &[u8]) -> bool
    requires { (n ≤ max_vectors) × (length codes.now ≡ code_length layout.b n) }
    ensures { result ≡ good_codes layout.d layout.b n marks.now codes.now }
{
    no_empty_codes(layout, n, marks, codes) && bits_at(codes, n * layout.b, 8) == 0
}

// Whether none of n codes names an empty region. Where there is none, no code has to be looked at.
fn no_empty_codes(layout: Layout, n: usize, marks: &[i32], codes: &[u8]) -> bool
    requires { n ≤ max_vectors }
    ensures { result ≡ no_empty_codes layout.d layout.b marks.now codes.now n }
{
    all_rise(layout, marks) || look_at_codes(layout, n, marks, codes)
}

// The same, by each of the codes.
fn look_at_codes(layout: Layout, n: usize, marks: &[i32], codes: &[u8]) -> bool
    requires { n ≤ max_vectors }
    ensures { result ≡ no_empty_codes layout.d layout.b marks.now codes.now n }
{
    (0..n).all(|i| none_empty(layout, marks, codes, i))
}

// Whether each region that code i names has a value.
fn none_empty(layout: Layout, marks: &[i32], codes: &[u8], i: usize) -> bool
    requires { i < max_vectors }
    ensures { result ≡ none_empty layout.d layout.b marks.now codes.now i layout.d }
{
    let mut places = [0usize; MAX_DIMENSIONS];
    mark_places(layout, codes, i, &mut places);
    rise_at(marks, &places[..layout.d])
}

// Whether the mark at each of these places is below the next one.
fn rise_at(marks: &[i32], places: &[usize]) -> bool
    requires { Small places.now }
    ensures { result ≡ rise_at marks.now places.now (length places.now) }
{
    places.iter().all(|&at| is_below(marks, at, marks, at + 1))
}
