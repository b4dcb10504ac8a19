// A bit buffer over codes, from which bits are taken in turn.
ghost use Rattle.std.specs.Prelude.{◌≡◌, ◌+◌, ◌-◌, ◌*◌, ◌^◌, ◌<◌, ◌≤◌, length};
ghost use Rattle.bounds.specs.BitBuffer.{Waits, Taken, four_bytes};

use codes::bits::bits_at;

// The bits that were read and not yet taken are the last `count` of `bits`. The next byte to be read is byte `next`.
#[derive(Drop)]
pub struct BitBuffer {
    pub bits: usize,
    pub count: usize,
    pub next: usize,
}

// The buffer of the bits from a place to the end of its byte.
#[tactic(auto, using(crate::specs::BitBuffer::begins))]
pub(crate) fn begin(codes: &[u8], from: usize) -> BitBuffer
    ensures { Waits codes.now from result.bits result.count result.next }
{
    let count = 8 - from % 8;
    BitBuffer {
        bits: bits_at(codes, from, count),
        count,
        next: from / 8 + 1,
    }
}

// The buffer without its first w bits, which then stand in front of the last `count` of `bits`.
pub(crate) fn take(codes: &[u8], buffer: BitBuffer, w: usize) -> BitBuffer
    requires { (Waits codes.now (buffer.next * 8 - buffer.count) buffer.bits buffer.count buffer.next)
        × (w ≤ 7) × (buffer.next * 8 - buffer.count + w ≤ length codes.now * 8) }
    ensures { Taken codes.now w (buffer.next * 8 - buffer.count) result.bits result.count result.next }
{
    let enough = fill(codes, buffer, w);
    BitBuffer {
        bits: enough.bits,
        count: enough.count - w,
        next: enough.next,
    }
}

// The buffer with w bits or more. Where it has fewer, seven bytes more are read, together with the one before them, or a single byte
// where so many are not left.
fn fill(codes: &[u8], buffer: BitBuffer, w: usize) -> BitBuffer
    requires { (Waits codes.now (buffer.next * 8 - buffer.count) buffer.bits buffer.count buffer.next)
        × (w ≤ 7) × (buffer.next * 8 - buffer.count + w ≤ length codes.now * 8) }
    ensures { (Waits codes.now (buffer.next * 8 - buffer.count) result.bits result.count result.next) × (w ≤ result.count) }
{
    let count = buffer.count;
    let next = buffer.next;
    if w <= count {
        return buffer;
    }
    if 7 <= codes.len() - next {
        let front = four_bytes(codes, next - 1);
        let back = four_bytes(codes, next + 3);
        return BitBuffer {
            bits: front * 0x1_0000_0000 + back,
            count: count + 56,
            next: next + 7,
        };
    }
    BitBuffer {
        bits: buffer.bits % 256 * 256 + usize::from(codes[next]),
        count: count + 8,
        next: next + 1,
    }
}

// The byte at an index and the next three, as one number.
fn four_bytes(codes: &[u8], i: usize) -> usize
    requires { i + 4 ≤ length codes.now }
    ensures { (result ≡ four_bytes codes.now i) × (result < 2 ^ 32) }
{
    let two = usize::from(codes[i]) * 256 + usize::from(codes[i + 1]);
    let three = two * 256 + usize::from(codes[i + 2]);
    three * 256 + usize::from(codes[i + 3])
}
