// Numbers in bytes, little-endian, signed ones by two's complement: what the C entries take and give.
#![tactic(auto)]

ghost use Rattle.std.specs.Prelude.{◌≡◌, ℕ, ◌*◌, ◌/◌, ◌≤◌, ◌<◌, List, length, take, drop};
ghost use mathlib.Core.List.{flat_map};
ghost use Rattle.std.specs.Int.{w32, w64};
ghost use Rattle.model.specs.Basics.{tab};
ghost use Rattle.model.specs.Form.{over};
ghost use Rattle.wire.specs.Bytes.{little_endian, int, nat, ints4, ints8, nats, bytes_of_int, bytes_of4, bytes_of8, bytes_of_counts, bytes_of_nats};
ghost use Rattle.wire.specs.Laws.{four_bytes, eight_bytes, length-little_endian, length-bytes_of_int, ints-read, nats-read, bytes_of-written, nats-written, counts-written};

// A number that stands in N bytes, the lowest first.
pub trait Number<const N: usize>: Copy {
    // The number in N bytes, and a number's bytes.
    ghost number_in: { List ℕ → Self };

    ghost bytes_of_one: { Self → List ℕ };

    // All numbers in bytes, a part of one at the end left out, and the bytes of several numbers.
    ghost numbers: { List ℕ → List Self };

    ghost bytes_of: { List Self → List ℕ };

    fn from_le_bytes(bytes: &[u8; N]) -> Self
        ensures { result ≡ number_in bytes.now };

    fn to_le_bytes(self) -> [u8; N]
        ensures { result ≡ bytes_of_one self };

    ghost width: { (0 < N) × (N ≤ 8) };

    ghost length_of_one: { (x : Self) → length (bytes_of_one x) ≡ N };

    ghost reads: { (s : List ℕ) → numbers s ≡ tab (λ i. number_in (take N (drop (i * N) s))) 0 (length s / N) };

    ghost writes: { (v : List Self) → bytes_of v ≡ flat_map bytes_of_one v };
}

#[tactic(auto, using(crate::proofs::StdWords::read_int4, crate::proofs::StdWords::write_int4))]
impl Number<4> for i32 {
    ghost number_in = { λ b. int w32 b 0 };

    ghost bytes_of_one = { bytes_of_int w32 };

    ghost numbers = { ints4 };

    ghost bytes_of = { bytes_of4 };

    ghost width = { four_bytes };

    ghost length_of_one = { length-bytes_of_int w32 };

    ghost reads = { ints-read w32 };

    ghost writes = { bytes_of-written w32 };

    fn from_le_bytes(bytes: &[u8; 4]) -> i32 {
        i32::from_le_bytes(*bytes)
    }

    fn to_le_bytes(self) -> [u8; 4] {
        i32::to_le_bytes(self)
    }
}

#[tactic(auto, using(crate::proofs::StdWords::read_int8, crate::proofs::StdWords::write_int8))]
impl Number<8> for i64 {
    ghost number_in = { λ b. int w64 b 0 };

    ghost bytes_of_one = { bytes_of_int w64 };

    ghost numbers = { ints8 };

    ghost bytes_of = { bytes_of8 };

    ghost width = { eight_bytes };

    ghost length_of_one = { length-bytes_of_int w64 };

    ghost reads = { ints-read w64 };

    ghost writes = { bytes_of-written w64 };

    fn from_le_bytes(bytes: &[u8; 8]) -> i64 {
        i64::from_le_bytes(*bytes)
    }

    fn to_le_bytes(self) -> [u8; 8] {
        i64::to_le_bytes(self)
    }
}

#[tactic(auto, using(crate::proofs::StdWords::read_nat4, crate::proofs::StdWords::write_nat4))]
impl Number<4> for u32 {
    ghost number_in = { λ b. nat 4 b 0 };

    ghost bytes_of_one = { little_endian 4 };

    ghost numbers = { nats 4 };

    ghost bytes_of = { bytes_of_nats 4 };

    ghost width = { four_bytes };

    ghost length_of_one = { length-little_endian 4 };

    ghost reads = { nats-read 4 };

    ghost writes = { nats-written 4 };

    fn from_le_bytes(bytes: &[u8; 4]) -> u32 {
        u32::from_le_bytes(*bytes)
    }

    fn to_le_bytes(self) -> [u8; 4] {
        u32::to_le_bytes(self)
    }
}

#[tactic(auto, using(crate::proofs::StdWords::read_nat8, crate::proofs::StdWords::write_nat8))]
impl Number<8> for u64 {
    ghost number_in = { λ b. nat 8 b 0 };

    ghost bytes_of_one = { little_endian 8 };

    ghost numbers = { nats 8 };

    ghost bytes_of = { bytes_of_counts };

    ghost width = { eight_bytes };

    ghost length_of_one = { length-little_endian 8 };

    ghost reads = { nats-read 8 };

    ghost writes = { counts-written };

    fn from_le_bytes(bytes: &[u8; 8]) -> u64 {
        u64::from_le_bytes(*bytes)
    }

    fn to_le_bytes(self) -> [u8; 8] {
        u64::to_le_bytes(self)
    }
}

// The numbers in s, over the beginning of d.
pub fn fill<const N: usize, T: Number<N>>(s: &[u8], d: &mut [T])
    requires { length s.now / N ≤ length d.old }
    ensures { d.new ≡ over (T.numbers s.now) d.old }
{
    let (parts, _) = s.as_chunks::<N>();
    for (i, part) in parts.iter().enumerate() {
        d[i] = T::from_le_bytes(part);
    }
}

// The numbers in s, where d has a place for each and no more.
pub fn decode<const N: usize, T: Number<N>>(s: &[u8], d: &mut [T])
    requires { length d.old ≡ length s.now / N }
    ensures { d.new ≡ T.numbers s.now }
{
    fill(s, d);
}

// The bytes of v, over the beginning of d.
pub fn encode<const N: usize, T: Number<N>>(v: &[T], d: &mut [u8])
    requires { length v.now * N ≤ length d.old }
    ensures { d.new ≡ over (T.bytes_of v.now) d.old }
{
    for (i, x) in v.iter().enumerate() {
        d[i * N..(i + 1) * N].copy_from_slice(&x.to_le_bytes());
    }
}
