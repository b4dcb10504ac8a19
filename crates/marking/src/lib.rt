// Marks made from vectors.
#![tactic(auto)]

ghost use Rattle.std.specs.Prelude.{◌≡◌, map, ◌++◌, ◌+◌, ◌^◌, ◌≤◌, length, drop};
ghost use Rattle.refusal.specs.First.{first, outcome};
ghost use Rattle.signed.specs.Keys.{key_of};
ghost use Rattle.marking.specs.Made.{column, in_order, mark_at, scale_ends, made_dimension, made_marks};
ghost use Rattle.marking.specs.Making.{make_causes, ColumnOf, MarksOf, Shares};
ghost use Rattle.marking.specs.KeysInOrder.{whole_of, ComponentKey, ComponentKeys};

use layout::Layout;
use limits::{GREATEST_MARK, LEAST_MARK, MAX_VECTORS};
use refusal::Refusal;

// The marks of d dimensions, with b bits in all, made from n vectors of d components that stand in a row.
#[tactic(auto, using(refusal::specs::First::handed_on), unfolding(refusal::specs::First::first))]
pub fn make_marks(
    d: usize,
    b: usize,
    n: usize,
    vectors: &[i32],
    marks: &mut [i32],
) -> Result<(), Refusal>
    ensures value { result ≡ first (make_causes d b n vectors.now (length marks.old)) }
    ensures marks_after { marks.new
        ≡ outcome (first (make_causes d b n vectors.now (length marks.old)))
        (made_marks d b n vectors.now) (λ _. marks.old) }
{
    let layout = Layout::new(d, b)?;
    if !limits::is_vector_count(n) {
        return Err(Refusal::Count);
    }
    if vectors.len() != n * d || marks.len() != layout.marks_length() {
        return Err(Refusal::Length);
    }
    if !signed::components::are_components(vectors) {
        return Err(Refusal::Component);
    }
    make_ready(layout, n, vectors, marks);
    Ok(())
}

// The marks, where nothing refuses, with arrays for the most vectors of a library.
fn make_ready(layout: Layout, n: usize, vectors: &[i32], marks: &mut [i32])
    requires { first (make_causes layout.d layout.b n vectors.now (length marks.old)) ≡ Ok tt }
    ensures { marks.new ≡ made_marks layout.d layout.b n vectors.now }
{
    let mut keys = [0u64; MAX_VECTORS];
    let mut spare = [0u64; MAX_VECTORS];
    make_dimensions(layout, vectors, &mut keys[..n], &mut spare, marks);
}

// The marks, with room for the keys of a dimension and for their sort: each dimension's are written into its own stretch of the buffer.
fn make_dimensions(
    layout: Layout,
    vectors: &[i32],
    keys: &mut [u64],
    spare: &mut [u64],
    marks: &mut [i32],
)
    requires marks_value { first (make_causes layout.d layout.b (length keys.old) vectors.now (length marks.old)) ≡ Ok tt }
    requires keys_in_bounds { length keys.old ≤ length spare.old }
    ensures { marks.new ≡ made_marks layout.d layout.b (length keys.old) vectors.now }
{
    for t in 0..layout.d {
        let stretch = layout.stretch(t + 1);
        let offset = stretch.offset;
        make_dimension(
            layout.d,
            t,
            stretch.bits,
            vectors,
            keys,
            spare,
            &mut marks[offset..],
        );
    }
}

// One dimension's marks, with t dimensions before it and w bits, at the front of the part. The rest of the part keeps its content.
fn make_dimension(
    d: usize,
    t: usize,
    w: usize,
    vectors: &[i32],
    keys: &mut [u64],
    spare: &mut [u64],
    part: &mut [i32],
)
    requires { (MarksOf d (length keys.old) t w vectors.now (length part.old)) × (length keys.old ≤ length spare.old) }
    ensures { part.new
        ≡ made_dimension (length keys.old) w (in_order (column d (length keys.old) vectors.now t))
        ++ drop (2 ^ w + 1) part.old }
{
    column_keys(d, t, vectors, keys);
    order::sort(keys, spare).unwrap();
    write_marks(w, keys, part);
}

// The keys of one dimension's components.
fn column_keys(d: usize, t: usize, vectors: &[i32], keys: &mut [u64])
    requires { ColumnOf d (length keys.old) t }
    ensures { keys.new ≡ map key_of (column d (length keys.old) vectors.now t) }
{
    for (i, key) in keys.iter_mut().enumerate() {
        *key = signed::key_at(vectors, i * d + t);
    }
}

// The marks from the keys of the components in non-falling order.
fn write_marks(w: usize, keys: &[u64], part: &mut [i32])
    requires { (Shares (length keys.now) w) × (2 ^ w + 1 ≤ length part.old) × (ComponentKeys keys.now) }
    ensures { part.new
        ≡ made_dimension (length keys.now) w (map whole_of keys.now) ++ drop (2 ^ w + 1) part.old }
{
    let regions = 1usize << w;
    for (i, out) in part[..=regions].iter_mut().enumerate() {
        *out = mark(w, keys, i);
    }
}

// Mark i of w bits: the outer ones are the ends of the scale, an inner one is the component at its share of the components.
fn mark(w: usize, keys: &[u64], i: usize) -> i32
    requires { (Shares (length keys.now) w) × (ComponentKeys keys.now) }
    ensures { result ≡ mark_at scale_ends (length keys.now) w (map whole_of keys.now) i }
{
    let n = keys.len();
    let regions = 1usize << w;
    if i < 1 {
        return LEAST_MARK;
    }
    if i < regions {
        return component_of(keys[(i * n) >> w]);
    }
    GREATEST_MARK
}

// The component of a key.
fn component_of(key: u64) -> i32
    requires { ComponentKey key }
    ensures { result ≡ whole_of key }
{
    (key as i64 - 0x8000_0000) as i32
}
