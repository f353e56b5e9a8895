// Numbers in lent bytes: low byte first, and two's complement.
#![tactic(auto)]

ghost use Rattle.std.specs.Prelude.{◌≡◌, ◌+◌, ◌≤◌, length};
ghost use Rattle.little_endian.specs.Bytes.{little_endian, twos_complement};

// Four bytes, and eight, low byte first. Each compiles to one load, since the length of the slice is known.
#[tactic(auto, unfolding(crate::specs::Bytes::little_endian))]
pub fn u32_at(bytes: &[u8], at: usize) -> u32
    requires { at + 4 ≤ length bytes.now }
    ensures { result ≡ little_endian 4 bytes.now at }
{
    u32::from_le_bytes(*bytes[at..at + 4].first_chunk::<4>().unwrap())
}

#[tactic(auto, unfolding(crate::specs::Bytes::little_endian))]
pub fn u64_at(bytes: &[u8], at: usize) -> u64
    requires { at + 8 ≤ length bytes.now }
    ensures { result ≡ little_endian 8 bytes.now at }
{
    u64::from_le_bytes(*bytes[at..at + 8].first_chunk::<8>().unwrap())
}

// Two's complement.
#[tactic(auto, using(crate::proofs::Numbers::as_signed_32))]
pub fn signed32(x: u32) -> i32
    ensures { result ≡ twos_complement 32 x }
{
    u32::cast_signed(x)
}

#[tactic(auto, using(crate::proofs::Numbers::as_signed_64))]
pub fn signed64(x: u64) -> i64
    ensures { result ≡ twos_complement 64 x }
{
    u64::cast_signed(x)
}
