// Bits of bytes spliced: the first bits of one slice, and behind them those of another from a bit on.
#![tactic(auto)]

ghost use Rattle.std.specs.Prelude.{◌≡◌, cond, ◌++◌, ◌+◌, ◌-◌, ◌*◌, ◌/◌, ◌%◌, ◌^◌, ◌≤◌, ◌<◌, ltb, length, take, drop};
ghost use Rattle.codes.specs.Bits.{from_bits, bytes_of, byte_bits};
ghost use Rattle.splicing.specs.Splice.{spliced_bytes};

use codes::bits::{bits_at, byte_at};

// Fills a buffer with the first p bits of one slice, then with those of another from bit q on, then with zeros.
pub fn splice(front: &[u8], p: usize, back: &[u8], q: usize, out: &mut [u8])
    ensures { out.new ≡ spliced_bytes (length out.old) front.now p back.now q }
{
    let whole = whole_bytes(p, front.len());
    let used = used_bits(p, front.len());
    if out.len() <= whole {
        let count = out.len();
        copy(front, count, out);
        return;
    }
    copy(front, whole, out);
    out[whole] = seam(front, whole, used, back, q) as u8;
    let bit = q % 8 + 8 - used;
    shift(back, q / 8 + bit / 8, bit % 8, whole + 1, out);
}

// How many of so many bytes lie whole before bit p.
fn whole_bytes(p: usize, bytes: usize) -> usize
    ensures { result ≡ cond (ltb (p / 8) bytes) (p / 8) bytes }
{
    (p / 8).min(bytes)
}

// How many bits of the next byte lie before bit p, 0 where there is no next one.
fn used_bits(p: usize, bytes: usize) -> usize
    ensures { result ≡ cond (ltb (p / 8) bytes) (p % 8) 0 }
{
    if p / 8 < bytes { p % 8 } else { 0 }
}

// Copies the first bytes.
fn copy(front: &[u8], count: usize, out: &mut [u8])
    requires { (count ≤ length front.now) × (count ≤ length out.old) }
    ensures { out.new ≡ take count front.now ++ drop count out.old }
{
    for i in 0..count {
        out[i] = front[i];
    }
}

// The byte that has the first bits of one slice's byte, and then those of another slice from bit q on.
fn seam(front: &[u8], whole: usize, used: usize, back: &[u8], q: usize) -> usize
    requires { (whole < 2 ^ 61) × (used < 8) }
    ensures { result ≡ from_bits used (drop (whole * 8) (byte_bits front.now)) * 2 ^ (8 - used)
        + from_bits (8 - used) (drop q (byte_bits back.now)) }
{
    (bits_at(front, whole * 8, used) << (8 - used)) + bits_at(back, q, 8 - used)
}

// Fills a buffer from byte `at` on with a slice's bits, from a bit of its byte `first` on, and with zeros behind them.
fn shift(back: &[u8], first: usize, bit: usize, at: usize, out: &mut [u8])
    requires { (first < 2 ^ 62) × (bit < 8) × (at ≤ length out.old) }
    ensures { out.new ≡ take at out.old
        ++ bytes_of (length out.old - at) (drop (first * 8 + bit) (byte_bits back.now)) }
{
    let mut high = byte_at(back, first);
    for o in at..out.len() {
        let next = byte_at(back, first + (o - at) + 1);
        out[o] = middle(high, next, bit) as u8;
        high = next;
    }
}

// 8 bits of two bytes, from a bit of the first on.
fn middle(high: usize, next: usize, bit: usize) -> usize
    requires { (high < 256) × (next < 256) × (bit < 8) }
    ensures { result ≡ (high * 256 + next) / 2 ^ (8 - bit) % 2 ^ 8 }
{
    ((high * 256 + next) >> (8 - bit)) & 255
}
