// Little-endian numbers in a slice of bytes. Past the end a byte reads 0.
#![tactic(auto)]

ghost use Rattle.std.specs.Prelude.{◌≡◌, ℕ, ◌+◌, ◌*◌, ◌<◌, slice_index, length};
ghost use Rattle.std.specs.Int.{w16, w32};
ghost use Rattle.std.proofs.Common.{to_z, of_z};
ghost use Rattle.bytes_le.specs.Numbers.{u16_at, u32_at, i16_at, i32_at};
ghost use Rattle.bytes_le.specs.Writing.{bytes_of, put_at};

// The bytes from a place on. Past the end a byte is 0.
fn bytes_at<const N: usize>(s: &[u8], at: usize) -> [u8; N]
    ensures { (i : ℕ) → i < N → slice_index result i ≡ slice_index s.now (at + i) }
{
    let Some(rest) = s.get(at..) else {
        return [0; N];
    };
    if let Some(bytes) = rest.first_chunk() {
        return *bytes;
    }
    // Byte by byte: a `copy_from_slice` is a call here, which slows the loops that read samples.
    let mut bytes = [0; N];
    for (i, byte) in bytes.iter_mut().enumerate() {
        *byte = rest.get(i).copied().unwrap_or(0);
    }
    bytes
}

pub fn join16(low: u8, high: u8) -> u16
    ensures { result ≡ low + high * 256 }
{
    u16::from_le_bytes([low, high])
}

pub fn signed16(v: u16) -> i16
    ensures { result ≡ to_z w16 v }
{
    v.cast_signed()
}

// The bits of a signed number.
pub fn bits16(v: i16) -> u16
    ensures { result ≡ of_z w16 v }
{
    v.cast_unsigned()
}

pub fn u16_at(s: &[u8], at: usize) -> u16
    ensures { result ≡ u16_at s.now at }
{
    u16::from_le_bytes(bytes_at(s, at))
}

pub fn u32_at(s: &[u8], at: usize) -> u32
    ensures { result ≡ u32_at s.now at }
{
    u32::from_le_bytes(bytes_at(s, at))
}

pub fn i16_at(s: &[u8], at: usize) -> i16
    ensures { result ≡ i16_at s.now at }
{
    i16::from_le_bytes(bytes_at(s, at))
}

pub fn i32_at(s: &[u8], at: usize) -> i32
    ensures { result ≡ i32_at s.now at }
{
    i32::from_le_bytes(bytes_at(s, at))
}

// Puts the lowest bytes of a number over a buffer, the lowest first.
fn fill(buffer: &mut [u8], v: u64)
    ensures { buffer.new ≡ bytes_of (length buffer.old) v }
{
    let mut rest = v;
    for byte in buffer.iter_mut() {
        *byte = (rest % 256) as u8;
        rest /= 256;
    }
}

// Puts the `count` lowest bytes of a number, the lowest first. Where they do not fit nothing is written.
pub fn put(buffer: &mut [u8], at: usize, count: usize, v: u64)
    ensures { buffer.new ≡ put_at buffer.old at (bytes_of count v) }
{
    if at <= buffer.len() && count <= buffer.len() - at {
        fill(&mut buffer[at..at + count], v);
    }
}

// Puts bytes over a buffer from a place on. Where they do not fit nothing is written.
pub fn put_bytes(buffer: &mut [u8], at: usize, bytes: &[u8])
    ensures { buffer.new ≡ put_at buffer.old at bytes.now }
{
    if at <= buffer.len() && bytes.len() <= buffer.len() - at {
        // Byte by byte: a `copy_from_slice` calls memmove, which the recorder's library for C would then need from outside.
        for (i, byte) in bytes.iter().enumerate() {
            buffer[at + i] = *byte;
        }
    }
}
