// Marks and regions, for C. Each gives 0, or the refusal's number; a refused call leaves what it was to write as it was.
ghost use Rattle.std.specs.Prelude.{◌≡◌, pos, length, get_or};
ghost use Rattle.refusal.specs.Refusal.{status_of};
ghost use Rattle.refusal.specs.First.{first, outcome};
ghost use Rattle.layout.specs.Stretch.{dimension_causes, stretch_of};
ghost use Rattle.region.specs.Region.{region_of};
ghost use Rattle.region.specs.Lookup.{region_causes};
ghost use Rattle.partition.specs.Marks.{dimension_marks};
ghost use Rattle.partition.specs.MarksCauses.{marks_causes, part_causes};
ghost use Rattle.partition.specs.Parts.{seen_marks};
ghost use Rattle.view.specs.View.{value_causes};
ghost use Rattle.marking.specs.Made.{made_marks};
ghost use Rattle.marking.specs.Making.{make_causes};

// Where dimension j's marks begin in the marks buffer, and how many bits it has.
#[unsafe(no_mangle)]
pub extern "C" fn matcher_stretch(
    d: usize,
    b: usize,
    j: usize,
    offset: &mut usize,
    bits: &mut usize,
) -> u32
    ensures { let v = first (dimension_causes d b j) in
        (result ≡ status_of v)
        × (offset.new ≡ outcome v (stretch_of d b j).offset (λ _. offset.old))
        × (bits.new ≡ outcome v (stretch_of d b j).bits (λ _. bits.old)) }
{
    match layout::check_dimension(d, b, j) {
        Ok(()) => {
            let stretch = layout::stretch_of(d, b, j);
            *offset = stretch.offset;
            *bits = stretch.bits;
            0
        }
        Err(cause) => cause.number(),
    }
}

// Whether the marks are as many as d dimensions with b bits have, in range, and never fall.
#[unsafe(no_mangle)]
pub extern "C" fn matcher_check_marks(d: usize, b: usize, marks: &[i32]) -> u32
    ensures { result ≡ status_of (first (marks_causes d b marks.now)) }
{
    refusal::status(partition::check_marks(d, b, marks))
}

// The same, and whether there is a dimension of this number, from 1.
#[unsafe(no_mangle)]
pub extern "C" fn matcher_check_part(d: usize, b: usize, marks: &[i32], j: usize) -> u32
    ensures { result ≡ status_of (first (part_causes d b marks.now j)) }
{
    refusal::status(partition::check_part(d, b, marks, j))
}

// How many marks dimension j has, 0 where they are refused.
#[unsafe(no_mangle)]
pub extern "C" fn matcher_part_length(d: usize, b: usize, marks: &[i32], j: usize) -> usize
    ensures { result ≡ length (seen_marks d b marks.now j) }
{
    view::dimension_marks(d, b, marks, j).len()
}

// Dimension j's mark at an index, 0 past the last and where the marks are refused.
#[unsafe(no_mangle)]
pub extern "C" fn matcher_part_at(d: usize, b: usize, marks: &[i32], j: usize, i: usize) -> i32
    ensures { result ≡ get_or (seen_marks d b marks.now j) i (pos 0) }
{
    signed::at(view::dimension_marks(d, b, marks, j), i)
}

// The region of a value in dimension j's marks.
#[unsafe(no_mangle)]
pub extern "C" fn matcher_region_of(
    d: usize,
    b: usize,
    marks: &[i32],
    j: usize,
    v: i32,
    region: &mut usize,
) -> u32
    ensures { let verdict = first (value_causes d b marks.now j v) in
        let part = dimension_marks d b marks.now j in
        (result ≡ status_of verdict) × (region.new ≡ outcome verdict (region_of part v) (λ _. region.old)) }
{
    c_answers::put_region(view::region_of(d, b, marks, j, v), region)
}

// The region of a value in one dimension's marks, of which there is one more than regions.
#[unsafe(no_mangle)]
pub extern "C" fn matcher_region(marks: &[i32], regions: usize, v: i32, region: &mut usize) -> u32
    ensures { let verdict = first (region_causes marks.now regions v) in
        (result ≡ status_of verdict)
        × (region.new ≡ outcome verdict (region_of marks.now v) (λ _. region.old)) }
{
    c_answers::put_region(region::region(marks, regions, v), region)
}

// The marks of d dimensions, with b bits in all, made from n vectors.
#[unsafe(no_mangle)]
pub extern "C" fn matcher_make_marks(
    d: usize,
    b: usize,
    n: usize,
    vectors: &[i32],
    marks: &mut [i32],
) -> u32
    ensures { let v = first (make_causes d b n vectors.now (length marks.old)) in
        (result ≡ status_of v)
        × (marks.new ≡ outcome v (made_marks d b n vectors.now) (λ _. marks.old)) }
{
    refusal::status(marking::make_marks(d, b, n, vectors, marks))
}
