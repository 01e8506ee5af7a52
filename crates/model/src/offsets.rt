// Signed offsets of 32 or of 64 bits, and what their width decides.
ghost use Rattle.std.proofs.Common.{rules, sym};
ghost use Rattle.std.proofs.lemmas.List.{map-id};
ghost use Rattle.std.specs.Prelude.{◌+ℤ◌, ◌-ℤ◌, ◌*ℤ◌, negsuc, is_some, IfSome, ◌≤◌, ℕ, ℤ, List, length, map, pos, refl, ◌≡◌};
ghost use Rattle.model.specs.Column.{count};
ghost use Rattle.std.specs.Ordering.{partial_le, partial_lt};
ghost use Rattle.std.specs.Cmp.Rules.{comparing};
ghost use Rattle.std.specs.Int.Signed.{le_z, lt_z};
ghost use Rattle.model.specs.Slice.{fits};
ghost use Rattle.model.specs.Limits.{InRange, LimitsFit, narrow, wide};
ghost use Rattle.model.specs.declared.offsets.Limits.{Limits};

use std::ops::{Add, Mul, Sub};

// What the width of the offsets decides.
#[derive(Clone, Copy)]
pub struct Limits {
    // The largest offset, and the largest index and stride where not every one fits.
    pub offset: usize,
    // Whether every index and stride fits.
    pub every: bool,
    // The largest sum of counts of resize.
    pub resized: usize,
    // The most elements of union.
    pub united: usize,
    // The most outer lists of list-repeat.
    pub outer: usize,
    // The most values that list-repeat repeats.
    pub repeated: usize,
}

// An offset of 32 or of 64 bits, with the signed arithmetic of its width.
pub trait Offset: Copy
    + PartialOrd
    + Add<Self, Output = Self>
    + Sub<Self, Output = Self>
    + Mul<Self, Output = Self> {
    // What its width decides.
    const LIMITS: Limits;

    ghost LIMITS: { Limits };

    const ZERO: Self;

    ghost ZERO: { Self };

    const ONE: Self;

    ghost ONE: { Self };

    const EIGHT: Self;

    ghost EIGHT: { Self };

    // An eighth of the smallest number.
    const EIGHTH: Self;

    ghost EIGHTH: { Self };

    // The number that an offset is.
    ghost number: { Self → ℤ };

    // The numbers that many are: of either width they are the list itself, so that callers see no mapping.
    ghost numbers: { List Self → List ℤ };

    // The offset as a number of 64 bits.
    fn to_number(self) -> i64
        ensures value { result ≡ number self }
        ensures upper_bound { count result ≤ LIMITS.offset };

    // The number as an offset, where it fits.
    fn from_number(v: i64) -> Option<Self>
        ensures fits { is_some result ≡ fits LIMITS v }
        ensures value { IfSome result (λ x. number x ≡ v) }
        ensures range { IfSome result (λ x. InRange LIMITS v) };

    // A count as an offset.
    fn from_count(v: usize) -> Self
        requires { v ≤ LIMITS.offset }
        ensures { number result ≡ pos v };

    ghost zero: { number ZERO ≡ pos 0 };

    ghost one: { number ONE ≡ pos 1 };

    ghost eight: { number EIGHT ≡ pos 8 };

    ghost eighth: { pos 8 *ℤ number EIGHTH ≡ negsuc LIMITS.offset };

    // The operators ask that the number is in range, and give it.
    ghost can_sum: { (x y : Self) → InRange LIMITS (number x +ℤ number y) → Self.can_add x y };

    ghost sum: { (x y r : Self) → Self.add_gives x y r → number r ≡ number x +ℤ number y };

    ghost can_differ: { (x y : Self) → InRange LIMITS (number x -ℤ number y) → Self.can_sub x y };

    ghost difference: { (x y r : Self) → Self.sub_gives x y r → number r ≡ number x -ℤ number y };

    ghost can_multiply: { (x y : Self) → InRange LIMITS (number x *ℤ number y) → Self.can_mul x y };

    ghost product: { (x y r : Self) → Self.mul_gives x y r → number r ≡ number x *ℤ number y };

    // The order is that of the numbers.
    ghost less: { (x y : Self) → partial_lt Self.partial_cmp x y ≡ lt_z (number x) (number y) };

    ghost most: { (x y : Self) → partial_le Self.partial_cmp x y ≡ le_z (number x) (number y) };

    ghost numbers_are: { (l : List Self) → numbers l ≡ map number l };

    ghost numbers_length: { (l : List Self) → length (numbers l) ≡ length l };

    ghost limits_fit: { LimitsFit LIMITS };
}

impl Offset for i32 {
    const LIMITS: Limits = Limits {
        offset: 2147483647,
        every: false,
        resized: 2147483647,
        united: 2147483647,
        outer: 2147483647,
        repeated: 2147483647,
    };

    ghost LIMITS = { narrow };

    const ZERO: i32 = 0;

    ghost ZERO = { pos 0 };

    const ONE: i32 = 1;

    ghost ONE = { pos 1 };

    const EIGHT: i32 = 8;

    ghost EIGHT = { pos 8 };

    const EIGHTH: i32 = -268435456;

    ghost EIGHTH = { negsuc 268435455 };

    ghost number = { λ x. x };

    ghost numbers = { λ l. l };

    fn to_number(self) -> i64 {
        i64::from(self)
    }

    #[tactic(auto, unfolding(crate::specs::Slice::fits))]
    fn from_number(v: i64) -> Option<i32> {
        i32::try_from(v).ok()
    }

    fn from_count(v: usize) -> i32 {
        v as i32
    }

    ghost zero = { refl };

    ghost one = { refl };

    ghost eight = { refl };

    ghost eighth = { refl };

    ghost can_sum = { λ x y h. record { sfits = Prim.search rules } };

    ghost sum = { λ x y r e. e };

    ghost can_differ = { λ x y h. record { sfits = Prim.search rules } };

    ghost difference = { λ x y r e. e };

    ghost can_multiply = { λ x y h. record { sfits = Prim.search rules } };

    ghost product = { λ x y r e. e };

    ghost less = { Prim.search (comparing, rules) };

    ghost most = { Prim.search (comparing, rules) };

    ghost numbers_are = { λ l. sym (map-id l) };

    ghost numbers_length = { λ l. refl };

    ghost limits_fit = { record { offset = Prim.search rules; resized = Prim.search rules; united = Prim.search rules; outer = Prim.search rules; repeated = Prim.search rules } };
}

impl Offset for i64 {
    const LIMITS: Limits = Limits {
        offset: 9223372036854775807,
        every: true,
        resized: 1152921504606846975,
        united: 9223372036854775807,
        outer: 1152921504606846974,
        repeated: 1152921504606846975,
    };

    ghost LIMITS = { wide };

    const ZERO: i64 = 0;

    ghost ZERO = { pos 0 };

    const ONE: i64 = 1;

    ghost ONE = { pos 1 };

    const EIGHT: i64 = 8;

    ghost EIGHT = { pos 8 };

    const EIGHTH: i64 = -1152921504606846976;

    ghost EIGHTH = { negsuc 1152921504606846975 };

    ghost number = { λ x. x };

    ghost numbers = { λ l. l };

    fn to_number(self) -> i64 {
        self
    }

    #[tactic(auto, unfolding(crate::specs::Slice::fits))]
    fn from_number(v: i64) -> Option<i64> {
        Some(v)
    }

    fn from_count(v: usize) -> i64 {
        v as i64
    }

    ghost zero = { refl };

    ghost one = { refl };

    ghost eight = { refl };

    ghost eighth = { refl };

    ghost can_sum = { λ x y h. record { sfits = Prim.search rules } };

    ghost sum = { λ x y r e. e };

    ghost can_differ = { λ x y h. record { sfits = Prim.search rules } };

    ghost difference = { λ x y r e. e };

    ghost can_multiply = { λ x y h. record { sfits = Prim.search rules } };

    ghost product = { λ x y r e. e };

    ghost less = { Prim.search (comparing, rules) };

    ghost most = { Prim.search (comparing, rules) };

    ghost numbers_are = { λ l. sym (map-id l) };

    ghost numbers_length = { λ l. refl };

    ghost limits_fit = { record { offset = Prim.search rules; resized = Prim.search rules; united = Prim.search rules; outer = Prim.search rules; repeated = Prim.search rules } };
}
