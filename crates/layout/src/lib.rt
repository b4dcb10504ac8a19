// How the bits and the marks are shared out among the dimensions.
#![tactic(auto)]

ghost use Rattle.std.specs.Prelude.{◌≡◌, ◌+◌, ◌-◌, ◌*◌, ◌/◌, ◌%◌, ◌^◌, ◌≤◌, min, Ok, Err, IfOk, IfErr};
ghost use Rattle.refusal.specs.First.{first};
ghost use Rattle.limits.specs.Limits.{max_dimensions, max_dimension_bits, max_vectors};
ghost use Rattle.layout.specs.Layout.{bits_of, first_marks, code_length};
ghost use Rattle.layout.specs.Stretch.{shape_causes, dimension_causes, stretch_of, marks_length, codes_length};

use refusal::Refusal;

// A number of dimensions and a number of bits in all, within their limits.
#[derive(Clone, Copy, Drop)]
pub struct Layout {
    pub d: usize,
    pub b: usize,
    pub ghost some: { 1 ≤ d },
    pub ghost few: { d ≤ max_dimensions },
    pub ghost within: { b ≤ max_dimension_bits * d },
}

// Where a dimension's marks begin in the marks buffer, and how many bits it has.
#[derive(Drop)]
pub struct Stretch {
    pub offset: usize,
    pub bits: usize,
}

impl Layout {
    // Refused is a number of dimensions or of bits that is out of its limits.
    #[tactic(auto, using(crate::proofs::Accepted::within_limits))]
    pub fn new(d: usize, b: usize) -> Result<Layout, Refusal>
        ensures ok { IfOk result (λ l. (l.d ≡ d) × (l.b ≡ b) × (first (shape_causes d b) ≡ Ok tt)) }
        ensures err { IfErr result (λ cause. first (shape_causes d b) ≡ Err cause) }
    {
        check_shape(d, b)?;
        Ok(Layout { d, b })
    }

    // The bits of each dimension but the first ones.
    pub fn fewest(self) -> usize
        ensures { result ≡ self.b / self.d }
    {
        self.b / self.d
    }

    // How many dimensions, the first ones, have one bit more.
    pub fn wider(self) -> usize
        ensures { result ≡ self.b % self.d }
    {
        self.b % self.d
    }

    // The length of the whole marks buffer.
    pub fn marks_length(self) -> usize
        ensures { result ≡ first_marks self.d self.b self.d }
    {
        self.marks_before(self.d)
    }

    // The length of n codes.
    pub fn codes_length(self, n: usize) -> usize
        requires { n ≤ max_vectors + 1 }
        ensures { result ≡ code_length self.b n }
    {
        (n * self.b + 7) / 8
    }

    // Dimension j's stretch of the marks buffer, from 1.
    pub fn stretch(self, j: usize) -> Stretch
        requires { (1 ≤ j) × (j ≤ self.d) }
        ensures offset { result.offset ≡ first_marks self.d self.b (j - 1) }
        ensures bits { result.bits ≡ bits_of self.d self.b j }
    {
        let fewest = self.b / self.d;
        let bits = if j <= self.b % self.d {
            fewest + 1
        } else {
            fewest
        };
        let offset = self.marks_before(j - 1);
        Stretch { offset, bits }
    }

    // The marks of the first j dimensions.
    fn marks_before(self, j: usize) -> usize
        requires { j ≤ max_dimensions }
        ensures { result ≡ first_marks self.d self.b j }
    {
        let regions = 1usize << (self.b / self.d);
        let wider = j.min(self.b % self.d);
        j * (regions + 1) + wider * regions
    }
}

// Whether there are such numbers of dimensions and of bits.
#[tactic(auto, unfolding(refusal::specs::First::first))]
pub fn check_shape(d: usize, b: usize) -> Result<(), Refusal>
    ensures { result ≡ first (shape_causes d b) }
{
    if !limits::is_dimension_count(d) {
        return Err(Refusal::Dimension);
    }
    if !limits::is_bits(d, b) {
        return Err(Refusal::Bits);
    }
    Ok(())
}

// The same, and whether there is a dimension of this number, from 1.
#[tactic(auto, unfolding(refusal::specs::First::first))]
pub fn check_dimension(d: usize, b: usize, j: usize) -> Result<(), Refusal>
    ensures { result ≡ first (dimension_causes d b j) }
{
    if !limits::is_between(1, j, d) {
        return Err(Refusal::Dimension);
    }
    check_shape(d, b)
}

// Dimension j's stretch of the marks buffer, 0 and 0 where there is no such dimension.
pub fn stretch_of(d: usize, b: usize, j: usize) -> Stretch
    ensures { result ≡ stretch_of d b j }
{
    match check_dimension(d, b, j) {
        Ok(()) => Layout { d, b }.stretch(j),
        Err(_) => Stretch { offset: 0, bits: 0 },
    }
}

// The length of the whole marks buffer, 0 where there are no such numbers.
pub fn marks_length(d: usize, b: usize) -> usize
    ensures { result ≡ marks_length d b }
{
    match Layout::new(d, b) {
        Ok(layout) => layout.marks_length(),
        Err(_) => 0,
    }
}

// The length of n codes, 0 where there are no such numbers.
pub fn codes_length(d: usize, b: usize, n: usize) -> usize
    ensures { result ≡ codes_length d b n }
{
    match Layout::new(d, b) {
        Ok(layout) if limits::is_vector_count(n) => layout.codes_length(n),
        _ => 0,
    }
}
