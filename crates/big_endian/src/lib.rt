// Reads and writes big-endian numbers of two and eight bytes.
#![tactic(auto)]

ghost use Rattle.std.specs.Prelude.{◌≡◌, ◌≤◌, [], ◌∷◌};
ghost use Rattle.std.proofs.lemmas.List.Edits.{sets};
ghost use Rattle.constraint.specs.Steps.{at};
ghost use Rattle.constraint.specs.Bytes.{bytes_of, number_at};

// The lowest byte of a number. It has a name because `u8::try_from` would add a case that cannot come, and `to_be_bytes` copies all eight.
fn low_byte(x: u64) -> u8
    ensures { result ∷ [] ≡ bytes_of 1 x }
{
    (x & 255) as u8
}

// The number in the `width` bytes from a place on: past the end, in those that are there.
pub fn number_at(bytes: &[u8], place: usize, width: usize) -> u64
    requires { width ≤ 8 }
    ensures { result ≡ number_at width bytes.now place }
{
    let rest = &bytes[place.min(bytes.len())..];
    let mut value = 0;
    for i in 0..width {
        let Some(&byte) = rest.get(i) else {
            return value;
        };
        value = value << 8 | u64::from(byte);
    }
    value
}

// The byte at a place, and 0 past the end.
pub fn byte_at(bytes: &[u8], place: usize) -> u8
    ensures { result ≡ at bytes.now place }
{
    bytes.get(place).copied().unwrap_or(0)
}

// §4.1
// The number in the two bytes from a place on: past the end, in those that are there.
pub fn two_at(bytes: &[u8], place: usize) -> usize
    ensures { result ≡ number_at 2 bytes.now place }
{
    number_at(bytes, place, 2) as usize
}

// §4.1
// The number in the eight bytes from a place on: past the end, in those that are there.
pub fn eight_at(bytes: &[u8], place: usize) -> u64
    ensures { result ≡ number_at 8 bytes.now place }
{
    number_at(bytes, place, 8)
}

// Stores bytes in a buffer from a place on. What would go past its end is not stored.
pub fn put(buffer: &mut [u8], place: usize, bytes: &[u8])
    ensures { buffer.new ≡ sets buffer.old place bytes.now }
{
    let from = place.min(buffer.len());
    let count = bytes.len().min(buffer.len() - from);
    buffer[from..from + count].copy_from_slice(&bytes[..count]);
}

// Stores one byte at a place of a buffer, unless that is past its end.
pub fn put_byte(buffer: &mut [u8], place: usize, byte: u8)
    ensures { buffer.new ≡ sets buffer.old place (byte ∷ []) }
{
    if place < buffer.len() {
        buffer[place] = byte;
    }
}

// Stores the `width` low bytes of a number in a buffer from a place on. What would go past its end is not stored.
pub fn put_number(buffer: &mut [u8], place: usize, x: u64, width: usize)
    requires { width ≤ 8 }
    ensures { buffer.new ≡ sets buffer.old place (bytes_of width x) }
{
    let count = width.min(buffer.len().saturating_sub(place));
    for i in 0..count {
        buffer[place + i] = low_byte(x >> (8 * (width - 1 - i)));
    }
}

// §4.1
// Stores the two low bytes of a number in a buffer from a place on.
pub fn put_two(buffer: &mut [u8], place: usize, x: usize)
    ensures { buffer.new ≡ sets buffer.old place (bytes_of 2 x) }
{
    put_number(buffer, place, x as u64, 2);
}

// §4.1
// Stores the eight bytes of a number in a buffer from a place on.
pub fn put_eight(buffer: &mut [u8], place: usize, x: u64)
    ensures { buffer.new ≡ sets buffer.old place (bytes_of 8 x) }
{
    put(buffer, place, &x.to_be_bytes());
}
