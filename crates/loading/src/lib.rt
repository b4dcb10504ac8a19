// A library loaded from bytes: one pass over the bytes finds the verdict, and a second fills the buffers.
#![tactic(auto)]

mod check;
mod fill;
mod values;

ghost use Rattle.std.specs.Prelude.{◌≡◌, length, Ok, Err, IfOk, IfErr};
ghost use Rattle.refusal.specs.First.{first};
ghost use Rattle.library.specs.Library.{read_library};
ghost use Rattle.loading.specs.Load.{load_causes, loaded, counts, filled};
ghost use Rattle.loading.specs.Heads.{HeadOf};

use crate::check::{Head, check_records};
use crate::fill::{fill_components, fill_marks, fill_settings};
use limits::{MAX_DIMENSION_BITS, MAX_DIMENSIONS, MAX_VECTORS};
use refusal::Refusal;

// The counts of a library that is loaded, and how many bytes it took.
#[derive(Clone, Copy, Default, Drop)]
pub struct Loaded {
    pub d: usize,
    pub b: usize,
    pub n: usize,
    pub used: usize,
}

// The lengths at which the buffers are lent: those of the largest library.
pub const MARKS_ROOM: usize = MAX_DIMENSIONS * ((1 << MAX_DIMENSION_BITS) + 1);

pub const SETTINGS_ROOM: usize = MAX_VECTORS;

pub const COMPONENTS_ROOM: usize = MAX_VECTORS * MAX_DIMENSIONS;

// The library that the bytes begin with is loaded into the fronts of the buffers.
pub fn load(
    bytes: &[u8],
    marks: &mut [i32],
    settings: &mut [u32],
    components: &mut [i32],
) -> Result<Loaded, Refusal>
    ensures value { result ≡ counts
        (first (load_causes (length marks.old) (length settings.old) (length components.old)
        bytes.now))
        (read_library bytes.now) }
    ensures marks_after { marks.new ≡ filled
        (first (load_causes (length marks.old) (length settings.old) (length components.old)
        bytes.now))
        (read_library bytes.now).marks marks.old }
    ensures settings_after { settings.new ≡ filled
        (first (load_causes (length marks.old) (length settings.old) (length components.old)
        bytes.now))
        (read_library bytes.now).settings settings.old }
    ensures components_after { components.new ≡ filled
        (first (load_causes (length marks.old) (length settings.old) (length components.old)
        bytes.now))
        (read_library bytes.now).components components.old }
{
    let head = check_load(bytes, marks.len(), settings.len(), components.len())?;
    Ok(fill_all(bytes, head, marks, settings, components))
}

// The head, or the first cause for which a library is not loaded: the lengths of the buffers are tested, then the records.
#[tactic(auto, using(std::proofs::lemmas::Bool::Decides::nat_tests), unfolding(refusal::specs::First::first, crate::specs::Load::load_causes))]
fn check_load(
    bytes: &[u8],
    marks: usize,
    settings: usize,
    components: usize,
) -> Result<Head, Refusal>
    ensures ok { IfOk result (λ head. (HeadOf bytes.now head.layout.d head.layout.b head.n)
        × (first (load_causes marks settings components bytes.now) ≡ Ok tt)) }
    ensures err { IfErr result (λ cause. first (load_causes marks settings components bytes.now) ≡ Err cause) }
{
    if marks != MARKS_ROOM {
        return Err(Refusal::Length);
    }
    if settings != SETTINGS_ROOM {
        return Err(Refusal::Length);
    }
    if components != COMPONENTS_ROOM {
        return Err(Refusal::Length);
    }
    check_records(bytes)
}

// A library that nothing refuses is loaded into the fronts of the buffers.
fn fill_all(
    bytes: &[u8],
    head: Head,
    marks: &mut [i32],
    settings: &mut [u32],
    components: &mut [i32],
) -> Loaded
    requires { (HeadOf bytes.now head.layout.d head.layout.b head.n)
        × (first (load_causes (length marks.old) (length settings.old) (length components.old) bytes.now) ≡ Ok tt) }
    ensures value { result ≡ loaded (read_library bytes.now) }
    ensures marks_after { marks.new ≡ filled (Ok tt) (read_library bytes.now).marks marks.old }
    ensures settings_after { settings.new ≡ filled (Ok tt) (read_library bytes.now).settings settings.old }
    ensures components_after { components.new ≡ filled (Ok tt) (read_library bytes.now).components components.old }
{
    let layout = head.layout;
    let m = layout.marks_length();
    fill_marks(bytes, m, marks);
    fill_settings(bytes, m, head.n, settings);
    fill_components(bytes, m, layout.d, head.n, components);
    Loaded {
        d: layout.d,
        b: layout.b,
        n: head.n,
        used: library::length(layout, head.n),
    }
}
