// Bytes read at any place: past the end they are 0.
ghost use Rattle.std.specs.Prelude.{◌≡◌, ℕ, ◌+◌, ◌<◌, slice_index};
ghost use Rattle.blocks.specs.Bytes.{number, part};

use std::array;

pub fn byte_at(bytes: &[u8], place: usize) -> u8
    ensures { result ≡ slice_index bytes.now place }
{
    bytes.get(place).copied().unwrap_or(0)
}

// The N bytes from a place on.
fn array_at<const N: usize>(bytes: &[u8], place: usize) -> [u8; N]
    ensures { (k : ℕ) → k < N → slice_index result k ≡ slice_index bytes.now (place + k) }
{
    array::from_fn(move |k| byte_at(bytes, place.saturating_add(k)))
}

// The two bytes from a place on as a number, low byte first. (Two functions, since no trait has `from_le_bytes`.)
pub fn u16_at(bytes: &[u8], place: usize) -> u16
    ensures { result ≡ number (part 2 place bytes.now) }
{
    u16::from_le_bytes(array_at(bytes, place))
}

// The four bytes from a place on as a number, low byte first.
pub fn u32_at(bytes: &[u8], place: usize) -> u32
    ensures { result ≡ number (part 4 place bytes.now) }
{
    u32::from_le_bytes(array_at(bytes, place))
}
