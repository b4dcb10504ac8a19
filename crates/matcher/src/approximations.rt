// Codes, for C. Each gives 0, or the refusal's number; a refused call leaves a buffer as it was.
ghost use Rattle.std.specs.Prelude.{◌≡◌, length};
ghost use Rattle.refusal.specs.Refusal.{status_of};
ghost use Rattle.refusal.specs.First.{first, outcome};
ghost use Rattle.codes.specs.Codes.{packed, unpacked};
ghost use Rattle.codes.specs.Pack.{pack_causes, unpack_causes};
ghost use Rattle.cells.specs.CellCauses.{code_causes};
ghost use Rattle.approximation.specs.Vectors.{vector_regions, vector_codes};
ghost use Rattle.approximation.specs.VectorCauses.{regions_causes, pack_vectors_causes};

// n rows of region numbers packed into codes of b bits.
#[unsafe(no_mangle)]
pub extern "C" fn matcher_pack(
    d: usize,
    b: usize,
    n: usize,
    regions: &[u8],
    codes: &mut [u8],
) -> u32
    ensures { let v = first (pack_causes d b n regions.now (length codes.old)) in
        (result ≡ status_of v)
        × (codes.new ≡ outcome v (packed d b n regions.now) (λ _. codes.old)) }
{
    refusal::status(codes::pack(d, b, n, regions, codes))
}

// n rows of region numbers read off codes of b bits.
#[unsafe(no_mangle)]
pub extern "C" fn matcher_unpack(
    d: usize,
    b: usize,
    n: usize,
    codes: &[u8],
    regions: &mut [u8],
) -> u32
    ensures { let v = first (unpack_causes d b n codes.now (length regions.old)) in
        (result ≡ status_of v)
        × (regions.new ≡ outcome v (unpacked d b n codes.now) (λ _. regions.old)) }
{
    refusal::status(codes::unpack(d, b, n, codes, regions))
}

// Whether no code names an empty region and no spare bit is set, for codes and marks of the right lengths.
#[unsafe(no_mangle)]
pub extern "C" fn matcher_check_codes(
    d: usize,
    b: usize,
    n: usize,
    marks: &[i32],
    codes: &[u8],
) -> u32
    ensures { result ≡ status_of (first (code_causes d b n marks.now codes.now)) }
{
    refusal::status(cells::check_codes(d, b, n, marks, codes))
}

// The regions of n vectors under the marks.
#[unsafe(no_mangle)]
pub extern "C" fn matcher_regions(
    d: usize,
    b: usize,
    n: usize,
    vectors: &[i32],
    marks: &[i32],
    regions: &mut [u8],
) -> u32
    ensures { let v = first (regions_causes d b n vectors.now marks.now (length regions.old)) in
        (result ≡ status_of v)
        × (regions.new ≡ outcome v (vector_regions d b marks.now vectors.now) (λ _. regions.old)) }
{
    refusal::status(approximation::regions(d, b, n, vectors, marks, regions))
}

// The codes of n vectors under the marks.
#[unsafe(no_mangle)]
pub extern "C" fn matcher_pack_vectors(
    d: usize,
    b: usize,
    n: usize,
    vectors: &[i32],
    marks: &[i32],
    codes: &mut [u8],
) -> u32
    ensures { let v = first (pack_vectors_causes d b n vectors.now marks.now (length codes.old)) in
        (result ≡ status_of v)
        × (codes.new ≡ outcome v (vector_codes d b n marks.now vectors.now) (λ _. codes.old)) }
{
    refusal::status(approximation::pack_vectors(d, b, n, vectors, marks, codes))
}
