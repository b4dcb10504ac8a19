// A bit writer: bits are put into bytes from the front, each byte filled from its high bit.
ghost use Rattle.std.specs.Prelude.{◌≡◌, true, ◌++◌, ◌+◌, ◌-◌, ◌*◌, ◌/◌, ◌^◌, ◌≤◌, ◌<◌, min, length};
ghost use Rattle.codes.specs.Bits.{bytes_of};
ghost use Rattle.codes.specs.Fields.{fields, all_below};
ghost use Rattle.codes.specs.BitWriter.{placed, written_bits, Writes};

use crate::bits::low;

// The bytes before byte `next` are full. Of that one the last `free` bits are free, and those before them make the number `byte`.
#[derive(Drop)]
pub(crate) struct BitWriter {
    pub next: usize,
    pub byte: usize,
    pub free: usize,
}

// How many bits a step placed, and the byte with them.
#[derive(Drop)]
pub(crate) struct Placed {
    pub count: usize,
    pub byte: usize,
}

// A writer at the first bit.
pub(crate) fn begin() -> BitWriter
    ensures { (result.next ≡ 0) × (result.byte ≡ 0) × (result.free ≡ 8) }
{
    BitWriter {
        next: 0,
        byte: 0,
        free: 8,
    }
}

// Numbers of w bits each, put behind what is written. Each takes one step, or one that fills the byte and one into the next. By its low
// three bits the compiler knows that the width is below 8, and that the second step places all that is left.
pub(crate) fn put(numbers: &[u8], w: usize, writer: BitWriter, bytes: &mut [u8]) -> BitWriter
    requires { Writes bytes.old writer × (w < 8) × (all_below (2 ^ w) numbers.now ≡ true)
        × (length (written_bits bytes.old writer) + length numbers.now * w ≤ length bytes.old * 8) }
    ensures writes { Writes bytes.new result }
    ensures result_after { written_bits bytes.new result ≡ written_bits bytes.old writer ++ fields w numbers.now }
{
    let width = low(w, 3);
    let mut next = writer.next;
    let mut byte = writer.byte;
    let mut free = writer.free;
    for number in numbers {
        let x = *number as usize;
        let first = place(x, width, byte, free);
        let count = first.count;
        if count < free {
            byte = first.byte;
            free -= count;
        } else {
            bytes[next] = first.byte as u8;
            next += 1;
            let left = width - count;
            let second = place(low(x, left), left, 0, 8);
            byte = second.byte;
            free = 8 - second.count;
        }
    }
    BitWriter { next, byte, free }
}

// The step: of the bits that are left of a number the first are placed behind those of a byte, as many as are free in it.
fn place(x: usize, left: usize, byte: usize, free: usize) -> Placed
    requires { (x < 2 ^ left) × (left ≤ 8) × (byte < 2 ^ (8 - free)) × (free ≤ 8) }
    ensures count_value { result.count ≡ min left free }
    ensures byte_value { result.byte ≡ placed x left byte free }
{
    if left < free {
        let all = (byte << left) + x;
        return Placed {
            count: left,
            byte: all,
        };
    }
    let full = (byte << free) + first_bits(x, left, free);
    Placed {
        count: free,
        byte: full,
    }
}

// The number of the first of the bits that are left of a number.
fn first_bits(x: usize, left: usize, count: usize) -> usize
    requires { (left ≤ 8) × (count ≤ left) }
    ensures { result ≡ x / 2 ^ (left - count) }
{
    x >> (left - count)
}

// The last byte, where it has a bit. Its free bits are zero.
pub(crate) fn finish(writer: BitWriter, bytes: &mut [u8])
    requires { Writes bytes.old writer × (length bytes.old ≡ (length (written_bits bytes.old writer) + 7) / 8) }
    ensures { bytes.new ≡ bytes_of (length bytes.old) (written_bits bytes.old writer) }
{
    let next = writer.next;
    let byte = writer.byte;
    let free = writer.free;
    if free < 8 {
        bytes[next] = (byte << free) as u8;
    }
}
