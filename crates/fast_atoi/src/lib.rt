// `fast_atoi` of date/utils.rs: a block of ASCII digits, the first of them in the lowest byte, joined to the number that they write by
// three products (two for four digits). The products are "modulo 2^32 or 2^64 on purpose, in a helper".
#![tactic(auto)]

ghost use Rattle.std.specs.Prelude.{◌≡◌, ◌-◌, ◌*◌, ◌%◌, ◌^◌, ◌<◌, ◌≤◌};
ghost use Rattle.fast_atoi.specs.Inner.{moved, join4, join8};

// 2^32, the number of values of a half of 64 bits.
const HALF: u64 = 4_294_967_296;

// The low 64 bits of the product, "built on halves and wrapping add".
#[tactic(auto, using(crate::proofs::Halves::product, crate::proofs::Halves::halves_fit))]
pub fn wrapping_mul_u64(a: u64, b: u64) -> u64
    ensures { result ≡ a * b % 2 ^ 64 }
{
    let a1 = a / HALF;
    let a0 = a % HALF;
    let b1 = b / HALF;
    let b0 = b % HALF;
    let cross = (a1 * b0).wrapping_add(a0 * b1);
    (a0 * b0).wrapping_add(cross % HALF * HALF)
}

// The low 32 bits of the product: those of the product of 64.
#[tactic(auto, using(crate::proofs::Halves::lower))]
pub fn wrapping_mul_u32(a: u32, b: u32) -> u32
    ensures { result ≡ a * b % 2 ^ 32 }
{
    (wrapping_mul_u64(u64::from(a), u64::from(b)) % HALF) as u32
}

// Up to four digits, moved up to the top of the block. A shift by the whole width, for no digits, is not defined in Rust either; a `len`
// beyond 8 has no caller there (`parse_n_ascii_digits` asserts it).
#[tactic(auto, unfolding(crate::specs::Inner::join4, crate::specs::Inner::pairs4))]
pub fn process_4(val: u32, len: usize) -> u32
    requires { (0 < len) × (len ≤ 8) }
    ensures { result ≡ join4 (moved 32 len val) }
{
    let top = val << 32usize.saturating_sub(8 * len);
    let pairs = wrapping_mul_u32(top & 0x0F0F_0F0F, 0xA01) >> 8;
    wrapping_mul_u32(pairs & 0x00FF_00FF, 0x64_0001) >> 16
}

// Up to eight digits.
#[tactic(auto, unfolding(crate::specs::Inner::join8, crate::specs::Inner::fours8, crate::specs::Inner::pairs8))]
pub fn process_8(val: u64, len: usize) -> u64
    requires { (0 < len) × (len ≤ 8) }
    ensures { result ≡ join8 (moved 64 len val) }
{
    let top = val << 64usize.saturating_sub(8 * len);
    let pairs = wrapping_mul_u64(top & 0x0F0F_0F0F_0F0F_0F0F, 0xA01) >> 8;
    let fours = wrapping_mul_u64(pairs & 0x00FF_00FF_00FF_00FF, 0x64_0001) >> 16;
    wrapping_mul_u64(fours & 0x0000_FFFF_0000_FFFF, 0x2710_0000_0001) >> 32
}
