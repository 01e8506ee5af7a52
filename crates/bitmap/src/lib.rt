// Bits of a bitmap: bit i is bit i mod 8 of byte i div 8, bit 0 lowest. An inner crate: its callers meet what it asks.
#![tactic(auto)]

ghost use Rattle.std.specs.Prelude.{◌%◌, ◌+◌, ◌/◌, ◌<◌, ◌≤◌, length, ◌≡◌};
ghost use Rattle.bitmap.specs.Push.{Covers, bits_from, push_bit};
ghost use Rattle.bitmap.specs.Reads.{bits_in};
ghost use Rattle.model.specs.Bitmap.{bit_at, bytes_for, short_bits, valid_at};
ghost use Rattle.model.specs.Column.{over_seven};

// Whether bit i is set.
fn bit_at(bitmap: &[u8], i: usize) -> bool
    requires { i / 8 < length bitmap.now }
    ensures { result ≡ bit_at bitmap.now i }
{
    (bitmap[i / 8] >> (i % 8)) & 1 == 1
}

// The same, counted from a starting bit; the sum of the two may be past the largest number.
fn bit_from(bitmap: &[u8], start: usize, i: usize) -> bool
    requires start_bound { start < 8 }
    requires i_in_bounds { (start + i) / 8 < length bitmap.now }
    ensures { result ≡ bit_at bitmap.now (start + i) }
{
    let p = start + i % 8;
    (bitmap[i / 8 + p / 8] >> (p % 8)) & 1 == 1
}

// Which rows or elements are valid: those whose bit is set, counted from a starting bit. No bytes say that all are.
#[derive(Clone, Copy)]
pub struct Validity<'a> {
    pub bytes: &'a [u8],
    pub start: usize,
}

impl<'a> Validity<'a> {
    // Whether the starting bit is over 7, also beside no bytes.
    pub fn is_start_over(self) -> bool
        ensures { result ≡ over_seven (bits_in self.entry) }
    {
        7 < self.start
    }

    // Whether bytes are lent, and fewer than n bits.
    #[tactic(auto, unfolding(model::specs::Bitmap::short_bits))]
    pub fn is_short(self, n: usize) -> bool
        requires { self.start < 8 }
        ensures { result ≡ short_bits (bits_in self.entry) n }
    {
        !self.bytes.is_empty() && self.bytes.len() < bytes_from(self.start, n)
    }

    // Whether item i of n is valid; a bitmap that starts at bit 0, as most do, needs no counting from a start.
    #[tactic(auto, unfolding(model::specs::Bitmap::valid_at))]
    pub fn is_valid(self, i: usize, n: usize) -> bool
        requires covers { Covers (bits_in self) n }
        requires i_lt_n { i < n }
        ensures { result ≡ valid_at (bits_in self.entry) i }
    {
        if self.bytes.is_empty() {
            return true;
        }
        if self.start == 0 {
            return bit_at(self.bytes, i);
        }
        bit_from(self.bytes, self.start, i)
    }

    // The items from item a of n on: from the byte on that holds its bit.
    #[tactic(auto, unfolding(crate::specs::Push::bits_from))]
    pub fn tail(self, a: usize, n: usize) -> Validity<'a>
        requires covers { Covers (bits_in self) n }
        requires a_le_n { a ≤ n }
        ensures { bits_in result ≡ bits_from (bits_in self.entry) a }
    {
        let start = start_from(self.start, a);
        if self.bytes.is_empty() {
            return Validity {
                bytes: self.bytes,
                start,
            };
        }
        let byte = a / 8 + (self.start + a % 8) / 8;
        Validity {
            bytes: &self.bytes[byte..],
            start,
        }
    }
}

// Appends bit i, the bits before it being written: the first bit of a byte starts the byte anew.
#[tactic(auto, unfolding(crate::specs::Push::push_bit))]
pub fn push_bit(bitmap: &mut [u8], i: usize, on: bool)
    requires { i / 8 < length bitmap.old }
    ensures { bitmap.new ≡ push_bit bitmap.old i on }
{
    let bit = u8::from(on);
    if i % 8 == 0 {
        bitmap[i / 8] = bit;
    } else {
        bitmap[i / 8] |= bit << (i % 8);
    }
}

// How many bytes n bits take.
pub fn bytes_for(n: usize) -> usize
    ensures { result ≡ bytes_for n }
{
    n.div_ceil(8)
}

// How many bytes n bits take that begin at a starting bit.
fn bytes_from(start: usize, n: usize) -> usize
    requires { start < 8 }
    ensures { result ≡ bytes_for (start + n) }
{
    n / 8 + (n % 8 + start).div_ceil(8)
}

// The place of bit a, counted from a starting bit, in its byte.
pub fn start_from(start: usize, a: usize) -> usize
    requires { start < 8 }
    ensures { result ≡ (start + a) % 8 }
{
    (start + a % 8) % 8
}
