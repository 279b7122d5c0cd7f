//! CRC-32, by a table with what each byte makes of a remainder.

ghost use Rattle.std.specs.Prelude.{◌≡◌, ℕ, ◌<◌, slice_index};
ghost use Rattle.inflate.specs.Checksum.{past_zeros};
ghost use Rattle.inflate.specs.Checksum as spec;

/// The divisor of the checksum, as a remainder is written.
const DIVISOR: u32 = 0xedb8_8320;

/// What is left of a remainder when eight zeros more are divided.
fn past_byte(remainder: u32) -> u32
    ensures { result ≡ past_zeros remainder 8 }
{
    let mut left = remainder;
    for _ in 0u8..8 {
        let is_taken = left % 2 == 1;
        left >>= 1;
        if is_taken {
            left ^= DIVISOR;
        }
    }
    left
}

/// What is left of each remainder below 256 when eight zeros more are divided.
fn table() -> [u32; 256]
    ensures { (k : ℕ) → k < 256 → slice_index result k ≡ past_zeros k 8 }
{
    let mut table = [0; 256];
    for k in 0..256 {
        table[k] = past_byte(k as u32);
    }
    table
}

/// The checksum of bytes, as gzip has it.
pub fn crc32(bytes: &[u8]) -> u32
    ensures { result ≡ spec.crc32 bytes.now }
{
    let table = table();
    let mut left = u32::MAX;
    for byte in bytes {
        left = table[((left ^ u32::from(*byte)) % 256) as usize] ^ (left >> 8);
    }
    !left
}
