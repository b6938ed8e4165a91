// Numbers in bytes that were read.
ghost use Rattle.std.specs.Prelude.{◌≡◌, ◌<◌, slice_index};
ghost use Rattle.notation.specs.Numbers.{number_at};

// The byte at a place, and 0 past the end.
pub fn byte_at(bytes: &[u8], i: usize) -> u8
    ensures value { result ≡ slice_index bytes.now i }
{
    if i < bytes.len() { bytes[i] } else { 0 }
}

// The 16-bit little-endian number at a place; bytes past the end count as 0.
pub fn number_at(bytes: &[u8], i: usize) -> usize
    ensures value { result ≡ number_at bytes.now i }
    ensures bound { result < 65536 }
{
    if i >= bytes.len() {
        return 0;
    }
    usize::from(bytes[i]) + 256 * usize::from(byte_at(bytes, i + 1))
}
