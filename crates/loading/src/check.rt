// The causes for which a library is not loaded, left to right through its bytes.
ghost use Rattle.std.specs.Prelude.{◌≡◌, ◌++◌, ◌+◌, ◌^◌, ◌≤◌, ◌<◌, length, drop, Ok, Err, IfOk, IfErr};
ghost use Rattle.refusal.specs.First.{first};
ghost use Rattle.records.specs.Records.{vector_kind, record_length};
ghost use Rattle.records.specs.Kinds.{number_of};
ghost use Rattle.library.specs.Each.{each, tabulate};
ghost use Rattle.library.specs.Library.{vector_place, mark_at, stored_at, read_library};
ghost use Rattle.library.specs.Ends.{Table, between, first_mark, last_mark};
ghost use Rattle.library.specs.Tests.{inside};
ghost use Rattle.loading.specs.Load.{head_causes, mark_wrong, mark_causes, zero_beyond, marks_causes, vectors_causes, end_causes};
ghost use Rattle.loading.specs.Load.{records_causes};
ghost use Rattle.loading.specs.Heads.{ShapeOf, HeadOf};
ghost use Rattle.loading.specs.Checks.{kind_causes, own_causes, between_causes};

use crate::values::{component_at, component_bits, mark_at, regions};
use layout::Layout;
use library::{lies, mark_place, vector_place};
use limits::{GREATEST_MARK, LEAST_MARK, MAX_DIMENSIONS};
use records::{Kind, byte_at, check_frame, u16_at};
use refusal::Refusal;

// What the head of a library holds, where it passes.
#[derive(Clone, Copy, Drop)]
pub(crate) struct Head {
    pub(crate) layout: Layout,
    pub(crate) n: usize,
}

// The head, or the first cause of a library's records.
pub(crate) fn check_records(bytes: &[u8]) -> Result<Head, Refusal>
    ensures ok { IfOk result (λ head. (HeadOf bytes.now head.layout.d head.layout.b head.n)
        × (first (records_causes (read_library bytes.now) bytes.now) ≡ Ok tt)) }
    ensures err { IfErr result (λ cause. first (records_causes (read_library bytes.now) bytes.now) ≡ Err cause) }
{
    let head = check_head(bytes)?;
    check_marks(bytes, head.layout)?;
    check_vectors(bytes, head)?;
    check_end(bytes, head)?;
    Ok(head)
}

// What the head holds, or its first cause.
fn check_head(bytes: &[u8]) -> Result<Head, Refusal>
    ensures ok { IfOk result (λ head. (HeadOf bytes.now head.layout.d head.layout.b head.n)
        × (first (head_causes (read_library bytes.now) bytes.now) ≡ Ok tt)) }
    ensures err { IfErr result (λ cause. first (head_causes (read_library bytes.now) bytes.now) ≡ Err cause) }
{
    check_kind(bytes, 0, Kind::Head)?;
    let d = byte_at(bytes, 1) as usize;
    let b = byte_at(bytes, 2) as usize;
    let n = u16_at(bytes, 3) as usize;
    let layout = Layout::new(d, b)?;
    if !limits::is_vector_count(n) {
        return Err(Refusal::Count);
    }
    Ok(Head { layout, n })
}

// The causes of a record in a place that is for one kind, but for the body's own.
#[tactic(auto, using(records::specs::RecordLaws::kind_at))]
fn check_kind(bytes: &[u8], at: usize, kind: Kind) -> Result<(), Refusal>
    ensures { result ≡ first (kind_causes (number_of kind) (drop at bytes.now)) }
{
    check_frame(bytes, at, byte_at(bytes, at) == kind.number())
}

// The first cause of the marks' records, for a head that passes.
fn check_marks(bytes: &[u8], layout: Layout) -> Result<(), Refusal>
    requires { ShapeOf bytes.now layout.d layout.b }
    ensures { result ≡ first (marks_causes (read_library bytes.now) bytes.now) }
{
    for t in 0..layout.d {
        let stretch = layout.stretch(t + 1);
        check_dimension(bytes, stretch.offset, regions(stretch.bits) + 1)?;
    }
    Ok(())
}

// The first cause of one dimension's marks, by the number of the first and how many they are.
fn check_dimension(bytes: &[u8], from: usize, count: usize) -> Result<(), Refusal>
    requires { from + count < 2 ^ 32 }
    ensures { result ≡ first (each count (mark_causes bytes.now from)) }
{
    for i in 0..count {
        check_mark(bytes, from, i)?;
    }
    Ok(())
}

// The first cause of mark i, from 0, of the dimension whose first mark is number `from`.
fn check_mark(bytes: &[u8], from: usize, i: usize) -> Result<(), Refusal>
    requires { from + i < 2 ^ 32 }
    ensures { result ≡ first (mark_causes bytes.now from i) }
{
    let at = mark_place((from + i) as u32);
    check_kind(bytes, at, Kind::Mark)?;
    if is_mark_wrong(bytes, from + i, i) {
        return Err(Refusal::Mark);
    }
    Ok(())
}

// Whether mark p, number i of its dimension, is out of range or below the one before it.
fn is_mark_wrong(bytes: &[u8], p: usize, i: usize) -> bool
    requires { (p < 2 ^ 32) × (i ≤ p) }
    ensures { result ≡ mark_wrong bytes.now p i }
{
    let mark = mark_at(bytes, p);
    !(LEAST_MARK..=GREATEST_MARK).contains(&mark) || (i > 0 && mark < mark_at(bytes, p - 1))
}

// The first cause of the vectors, for a head that passes. Each component is held against the ends of its dimension's marks, which are
// read once.
fn check_vectors(bytes: &[u8], head: Head) -> Result<(), Refusal>
    requires { HeadOf bytes.now head.layout.d head.layout.b head.n }
    ensures { result ≡ first (vectors_causes (read_library bytes.now) bytes.now) }
{
    let m = head.layout.marks_length();
    let mut lows = [0i32; MAX_DIMENSIONS];
    let mut highs = [0i32; MAX_DIMENSIONS];
    read_ends(bytes, head.layout, &mut lows, &mut highs);
    check_each(bytes, head.layout.d, m, head.n, &lows, &highs)
}

// The first and the last mark of each dimension are read into the fronts of two buffers.
fn read_ends(bytes: &[u8], layout: Layout, lows: &mut [i32], highs: &mut [i32])
    requires { (layout.d ≤ length lows.old) × (layout.d ≤ length highs.old) }
    ensures lows_after { lows.new
        ≡ tabulate layout.d (first_mark layout.d layout.b (mark_at bytes.now)) ++ drop layout.d lows.old }
    ensures highs_after { highs.new
        ≡ tabulate layout.d (last_mark layout.d layout.b (mark_at bytes.now)) ++ drop layout.d highs.old }
{
    for t in 0..layout.d {
        let stretch = layout.stretch(t + 1);
        let first = stretch.offset;
        let last = first + regions(stretch.bits);
        lows[t] = mark_at(bytes, first);
        highs[t] = mark_at(bytes, last);
    }
}

// The first cause of n vectors, whose records stand behind m marks.
fn check_each(
    bytes: &[u8],
    d: usize,
    m: usize,
    n: usize,
    lows: &[i32],
    highs: &[i32],
) -> Result<(), Refusal>
    requires { (Table d lows.now highs.now) × (m < 2 ^ 32) × (n < 2 ^ 32) }
    ensures { result
        ≡ first (each n (λ i. between_causes d lows.now highs.now (drop (vector_place m i) bytes.now))) }
{
    for i in 0..n {
        check_vector(bytes, d, vector_place(m as u32, i as u32), lows, highs)?;
    }
    Ok(())
}

// The first cause of the vector whose record begins at an index.
fn check_vector(
    bytes: &[u8],
    d: usize,
    at: usize,
    lows: &[i32],
    highs: &[i32],
) -> Result<(), Refusal>
    requires { Table d lows.now highs.now }
    ensures { result ≡ first (between_causes d lows.now highs.now (drop at bytes.now)) }
{
    check_kind(bytes, at, Kind::Vector)?;
    check_components(bytes, d, at, lows, highs)
}

// The first cause of the components of a vector whose record begins at an index and is whole.
#[tactic(auto, unfolding(refusal::specs::First::first))]
fn check_components(
    bytes: &[u8],
    d: usize,
    at: usize,
    lows: &[i32],
    highs: &[i32],
) -> Result<(), Refusal>
    requires { (Table d lows.now highs.now) × (at + record_length vector_kind ≤ length bytes.now) }
    ensures { result ≡ first (own_causes d lows.now highs.now (drop at bytes.now)) }
{
    let zero = is_zero_beyond(bytes, d, at);
    let inside = is_between(bytes, d, at, lows, highs);
    if !zero {
        return Err(Refusal::Component);
    }
    if !inside {
        return Err(Refusal::Outside);
    }
    Ok(())
}

// Whether the components beyond d of a vector are zero.
fn is_zero_beyond(bytes: &[u8], d: usize, at: usize) -> bool
    requires { at + record_length vector_kind ≤ length bytes.now }
    ensures { result ≡ zero_beyond d (drop at bytes.now) }
{
    (d..MAX_DIMENSIONS).all(|t| component_bits(bytes, at, t) == 0)
}

// Whether the first d components of a vector lie, each, between the ends of the marks of their dimension.
fn is_between(bytes: &[u8], d: usize, at: usize, lows: &[i32], highs: &[i32]) -> bool
    requires { (Table d lows.now highs.now) × (at + record_length vector_kind ≤ length bytes.now) }
    ensures { result ≡ between d lows.now highs.now (stored_at (drop at bytes.now)) }
{
    (0..d).all(|t| lies(lows[t], component_at(bytes, at, t), highs[t]))
}

// The first cause of the end's record, for a head that passes.
#[tactic(auto, using(library::specs::Sizes::layout_marks))]
fn check_end(bytes: &[u8], head: Head) -> Result<(), Refusal>
    requires { HeadOf bytes.now head.layout.d head.layout.b head.n }
    ensures { result ≡ first (end_causes (read_library bytes.now) bytes.now) }
{
    let at = vector_place(head.layout.marks_length() as u32, head.n as u32);
    check_kind(bytes, at, Kind::End)
}
