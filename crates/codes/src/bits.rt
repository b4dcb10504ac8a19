// Bits of bytes, each byte's high bit first.
ghost use Rattle.std.specs.Prelude.{◌≡◌, ◌+◌, ◌*◌, ◌%◌, ◌^◌, ◌≤◌, ◌<◌, get_or};
ghost use Rattle.codes.specs.Bits.{bits_at};

// The number of w bits from a position on, with zeros past the end; 0 where w is above 8.
pub fn bits_at(bytes: &[u8], from: usize, w: usize) -> usize
    ensures { result ≡ bits_at bytes.now from w }
{
    if 8 < w {
        return 0;
    }
    low(two_bytes(bytes, from / 8) >> (16 - from % 8 - w), w)
}

// The byte at an index and the next one, as one number; a byte past the end is 0.
fn two_bytes(bytes: &[u8], i: usize) -> usize
    requires { i < 2 ^ 63 }
    ensures { result ≡ get_or bytes.now i 0 * 256 + get_or bytes.now (i + 1) 0 }
{
    if i + 1 < bytes.len() {
        return bytes[i] as usize * 256 + bytes[i + 1] as usize;
    }
    byte_at(bytes, i) * 256
}

// The byte at an index, 0 past the end.
pub fn byte_at(bytes: &[u8], i: usize) -> usize
    ensures { result ≡ get_or bytes.now i 0 }
{
    bytes.get(i).map_or(0, |byte| usize::from(*byte))
}

// The low w bits of a number.
pub(crate) fn low(x: usize, w: usize) -> usize
    requires { w ≤ 8 }
    ensures { result ≡ x % 2 ^ w }
{
    x & ((1usize << w) - 1)
}
