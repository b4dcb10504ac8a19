// A vector added to a library, or one removed from it, with the marks kept (document 02, Slip 3). The old library is only read; the new
// one's vectors, settings and codes fill buffers of their own.
#![tactic(auto)]

mod copying;
mod place;

ghost use Rattle.std.specs.Prelude.{◌≡◌, true, ◌&&◌, suc, ◌≤◌, ◌<◌, ltb, length};
ghost use Rattle.refusal.specs.First.{first, outcome};
ghost use Rattle.limits.specs.Limits.{max_vectors, is_vector_count};
ghost use Rattle.layout.specs.Layout.{first_marks, code_length};
ghost use Rattle.updating.specs.Updated.{coded_library, added, removed, added_codes, removed_codes};
ghost use Rattle.updating.specs.UpdateCauses.{exact_for, lengths_with, library_causes, content_causes, add_causes, remove_causes};
ghost use Rattle.updating.specs.CodeMoves.{Appends, Cuts};

use crate::copying::{append_components, append_setting, cut_components, cut_settings};
use crate::place::check_place;
use approximation::pack_vectors;
use layout::Layout;
use limits::{MAX_DIMENSION_BITS, MAX_DIMENSIONS};
use refusal::Refusal;
use signed::components::are_components;
use splicing::splice;

// The most bytes of one code.
const MAX_CODE: usize = MAX_DIMENSIONS * MAX_DIMENSION_BITS / 8;

// The numbers of an addition: those of the library, and the settings number of the new vector.
#[derive(Clone, Copy, Drop)]
pub struct Addition {
    pub d: usize,
    pub b: usize,
    pub n: usize,
    pub setting: u32,
}

// The numbers of a removal: those of the library, and the number of the vector that goes.
#[derive(Clone, Copy, Drop)]
pub struct Removal {
    pub d: usize,
    pub b: usize,
    pub n: usize,
    pub number: usize,
}

// The lengths of buffers for vectors, settings and codes.
#[derive(Drop)]
pub struct Lengths {
    pub vectors: usize,
    pub settings: usize,
    pub codes: usize,
}

impl Lengths {
    // Those of these buffers.
    fn of(vectors: &[i32], settings: &[u32], codes: &[u8]) -> Lengths
        ensures { result ≡ lengths_with (length vectors.now) (length settings.now) (length codes.now) }
    {
        Lengths {
            vectors: vectors.len(),
            settings: settings.len(),
            codes: codes.len(),
        }
    }
}

// The library with a vector added, behind the others. Refused are numbers of dimensions, bits or vectors out of their limits, buffers of
// other lengths than those of n and of n + 1 vectors, a library that is full, components or marks out of range, marks that fall, a vector
// outside the marks, codes that name an empty region, and a spare bit that is set.
pub fn add(
    terms: Addition,
    marks: &[i32],
    codes: &[u8],
    settings: &[u32],
    vectors: &[i32],
    vector: &[i32],
    newvectors: &mut [i32],
    newsettings: &mut [u32],
    newcodes: &mut [u8],
) -> Result<(), Refusal>
    ensures { let l = coded_library terms.d terms.b terms.n marks.now codes.now
        settings.now vectors.now in
        let v = first (add_causes l vector.now (lengths_with (length newvectors.old)
        (length newsettings.old) (length newcodes.old))) in
        let after = added l vector.now terms.setting in
        (result ≡ v)
        × (newvectors.new ≡ outcome v after.vectors (λ _. newvectors.old))
        × (newsettings.new ≡ outcome v after.settings (λ _. newsettings.old))
        × (newcodes.new ≡ outcome v after.codes (λ _. newcodes.old)) }
{
    let layout = Layout::new(terms.d, terms.b)?;
    let room = Lengths::of(newvectors, newsettings, newcodes);
    check_add(
        layout, terms.n, marks, codes, settings, vectors, vector, room,
    )?;
    append_components(vectors, vector, newvectors);
    append_setting(settings, terms.setting, newsettings);
    append_code(layout, terms.n, marks, codes, vector, newcodes);
    Ok(())
}

// The library with a vector removed; those behind it move down by one. Refused is what `add` refuses, with the lengths of n - 1 vectors,
// and in place of a full library a number that is not stored, or the only vector.
pub fn remove(
    terms: Removal,
    marks: &[i32],
    codes: &[u8],
    settings: &[u32],
    vectors: &[i32],
    newvectors: &mut [i32],
    newsettings: &mut [u32],
    newcodes: &mut [u8],
) -> Result<(), Refusal>
    ensures { let l = coded_library terms.d terms.b terms.n marks.now codes.now
        settings.now vectors.now in
        let v = first (remove_causes l terms.number (lengths_with (length newvectors.old)
        (length newsettings.old) (length newcodes.old))) in
        let after = removed l terms.number in
        (result ≡ v)
        × (newvectors.new ≡ outcome v after.vectors (λ _. newvectors.old))
        × (newsettings.new ≡ outcome v after.settings (λ _. newsettings.old))
        × (newcodes.new ≡ outcome v after.codes (λ _. newcodes.old)) }
{
    let layout = Layout::new(terms.d, terms.b)?;
    let room = Lengths::of(newvectors, newsettings, newcodes);
    check_remove(
        layout,
        terms.n,
        terms.number,
        marks,
        codes,
        settings,
        vectors,
        room,
    )?;
    cut_components(vectors, terms.d, terms.number, newvectors);
    cut_settings(settings, terms.number, newsettings);
    cut_code(terms, codes, newcodes);
    Ok(())
}

// The tests of an addition.
#[tactic(auto, using(refusal::specs::First::handed_on), unfolding(refusal::specs::First::first))]
fn check_add(
    layout: Layout,
    n: usize,
    marks: &[i32],
    codes: &[u8],
    settings: &[u32],
    vectors: &[i32],
    vector: &[i32],
    room: Lengths,
) -> Result<(), Refusal>
    ensures { result ≡ first (add_causes (coded_library layout.d layout.b n marks.now codes.now
        settings.now vectors.now) vector.now room) }
{
    let own = Lengths::of(vectors, settings, codes);
    check_library(layout, n, marks.len(), own)?;
    let exact = vector.len() == layout.d && are_exact(layout, n + 1, room);
    check_place(exact, n)?;
    check_contents(layout, n, marks, codes, vectors, vector)
}

// The tests of a removal.
#[tactic(auto, using(refusal::specs::First::handed_on), unfolding(refusal::specs::First::first))]
fn check_remove(
    layout: Layout,
    n: usize,
    number: usize,
    marks: &[i32],
    codes: &[u8],
    settings: &[u32],
    vectors: &[i32],
    room: Lengths,
) -> Result<(), Refusal>
    ensures { result ≡ first (remove_causes (coded_library layout.d layout.b n marks.now codes.now
        settings.now vectors.now) number room) }
{
    let own = Lengths::of(vectors, settings, codes);
    check_library(layout, n, marks.len(), own)?;
    if !are_exact(layout, n - 1, room) {
        return Err(Refusal::Length);
    }
    if !is_removable(n, number) {
        return Err(Refusal::NotRemovable);
    }
    check_contents(layout, n, marks, codes, vectors, &vectors[..0])
}

// Whether the number of vectors is within its limits, and the library's buffers of the right lengths.
#[tactic(auto, unfolding(refusal::specs::First::first))]
fn check_library(layout: Layout, n: usize, marks: usize, own: Lengths) -> Result<(), Refusal>
    ensures { result ≡ first (library_causes layout.d layout.b n marks own) }
{
    if !limits::is_vector_count(n) {
        return Err(Refusal::Count);
    }
    if marks != layout.marks_length() || !are_exact(layout, n, own) {
        return Err(Refusal::Length);
    }
    Ok(())
}

// Whether buffers for vectors, settings and codes have the lengths of n vectors.
fn are_exact(layout: Layout, n: usize, lengths: Lengths) -> bool
    requires { n ≤ suc max_vectors }
    ensures { result ≡ exact_for layout.d layout.b n lengths }
{
    lengths.vectors == n * layout.d
        && lengths.settings == n
        && lengths.codes == layout.codes_length(n)
}

// Whether a number is that of one of n vectors, and not of the only one.
fn is_removable(n: usize, number: usize) -> bool
    ensures { result ≡ ltb number n && ltb 1 n }
{
    number < n && 1 < n
}

// Whether the library's components, and some more, are in range, its marks good, all components inside the marks, and its codes good.
#[tactic(auto, using(refusal::specs::First::handed_on), unfolding(refusal::specs::First::first))]
fn check_contents(
    layout: Layout,
    n: usize,
    marks: &[i32],
    codes: &[u8],
    vectors: &[i32],
    more: &[i32],
) -> Result<(), Refusal>
    requires { (is_vector_count n ≡ true) × (length marks.now ≡ first_marks layout.d layout.b layout.d)
        × (length codes.now ≡ code_length layout.b n) }
    ensures { result ≡ first (content_causes layout.d layout.b n marks.now codes.now vectors.now
        more.now) }
{
    if !are_components(more) {
        return Err(Refusal::Component);
    }
    approximation::check_vectors(layout.d, layout.b, vectors, marks)?;
    approximation::check_vectors(layout.d, layout.b, more, marks)?;
    cells::check_codes(layout.d, layout.b, n, marks, codes)
}

// The codes with that of a vector behind them: its code is made by itself, and its bits are put behind the others'.
fn append_code(
    layout: Layout,
    n: usize,
    marks: &[i32],
    codes: &[u8],
    vector: &[i32],
    newcodes: &mut [u8],
)
    requires { Appends layout.d layout.b n marks.now vector.now (length newcodes.old) }
    ensures { newcodes.new
        ≡ added_codes layout.d layout.b n marks.now codes.now vector.now }
{
    let mut code = [0u8; MAX_CODE];
    let size = layout.codes_length(1);
    pack_vectors(layout.d, layout.b, 1, vector, marks, &mut code[..size]).unwrap();
    splice(codes, n * layout.b, &code[..size], 0, newcodes);
}

// The codes without that of a vector: its bits are taken out.
fn cut_code(terms: Removal, codes: &[u8], newcodes: &mut [u8])
    requires { Cuts terms.d terms.b terms.n codes.now terms.number (length newcodes.old) }
    ensures { newcodes.new ≡ removed_codes terms.b terms.n codes.now terms.number }
{
    let start = terms.number * terms.b;
    splice(codes, start, codes, start + terms.b, newcodes);
}
