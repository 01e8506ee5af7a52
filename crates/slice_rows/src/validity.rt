// Which rows of a slice are null: those that are, and those with a null argument. Bits of 64 rows are read at once, as a word.
ghost use Rattle.std.specs.Prelude.{◌+◌, ◌-◌, ◌<◌, ◌≡◌};
ghost use Rattle.bit_words.specs.Words.{low_bits};
ghost use Rattle.bitmap.specs.Push.{Covers};
ghost use Rattle.bitmap.specs.Reads.{bits_in};
ghost use Rattle.model.specs.Basics.{tab};
ghost use Rattle.model.specs.Bitmap.{valid_at};
ghost use Rattle.slice_rows.specs.Columns.{Held, slice_in};
ghost use Rattle.slice_rows.specs.Sliced.{Known, all_valid, batch_of};

use crate::SliceColumns;
use bitmap::Validity;

// The number of rows whose bits are read at once, where so many are left: 64, or one.
#[tactic(auto, using(std::proofs::lemmas::Grind::common_steps), unfolding(crate::specs::Sliced::batch_of))]
pub fn batch(left: usize) -> usize
    ensures value { result ≡ batch_of left }
    ensures lower_bound { 0 < result }
{
    if left < 64 { 1 } else { 64 }
}

// The bits of the rows from row r of n on that are read at once, the first lowest; ones where no bytes are lent.
fn word_at(bits: Validity, n: usize, r: usize) -> u64
    requires known { Covers (bits_in bits) n }
    requires there { r < n }
    ensures { low_bits result (batch_of (n - r)) ≡ tab (valid_at (bits_in bits.entry)) r (batch_of (n - r)) }
{
    if bits.bytes.is_empty() {
        return u64::MAX;
    }
    if n - r < 64 {
        return bits.is_valid(r, n) as u64;
    }
    let p = bits.start + r % 8;
    bit_words::word_from(bits.bytes, r / 8 + p / 8, p % 8)
}

// Which of these rows are valid, their from, their to and, where the slice goes by one, their stride too.
pub fn valid_bits(rows: Validity, columns: SliceColumns, n: usize, r: usize) -> u64
    requires known { Known n (bits_in rows) (slice_in columns) }
    requires there { r < n }
    ensures { low_bits result (batch_of (n - r)) ≡ tab (all_valid (bits_in rows.entry) (slice_in columns.entry)) r (batch_of (n - r)) }
{
    let bits = word_at(rows, n, r)
        & word_at(columns.from.bits, n, r)
        & word_at(columns.to.bits, n, r);
    match columns.stride {
        Some(column) => bits & word_at(column.bits, n, r),
        None => bits,
    }
}

// The bits of the next rows that are read and not yet taken, the first lowest, and how many they are.
#[derive(Drop)]
pub struct NextBits {
    word: u64,
    known: usize,
}

impl NextBits {
    // None are read yet.
    pub fn none() -> NextBits
        ensures { result.known ≡ 0 }
    {
        NextBits { word: 0, known: 0 }
    }

    // Reads the bits of the rows from row r of n on, where none are left.
    #[inline(always)]
    fn read(&mut self, rows: Validity, columns: SliceColumns, n: usize, r: usize)
        requires known { Known n (bits_in rows) (slice_in columns) }
        requires there { r < n }
        requires held { Held (all_valid (bits_in rows) (slice_in columns)) r self.old }
        ensures held { Held (all_valid (bits_in rows.entry) (slice_in columns.entry)) r self.new }
        ensures some { 0 < self.new.known }
    {
        if self.known == 0 {
            self.word = valid_bits(rows, columns, n, r);
            self.known = batch(n - r);
        }
    }

    // Whether row r of n is valid, its from, its to and, where the slice goes by one, its stride too. Made in its place: a call would
    // copy the columns for each row.
    #[inline(always)]
    pub fn take(&mut self, rows: Validity, columns: SliceColumns, n: usize, r: usize) -> bool
        requires known { Known n (bits_in rows) (slice_in columns) }
        requires there { r < n }
        requires held { Held (all_valid (bits_in rows) (slice_in columns)) r self.old }
        ensures valid { result ≡ all_valid (bits_in rows.entry) (slice_in columns.entry) r }
        ensures held { Held (all_valid (bits_in rows.entry) (slice_in columns.entry)) (r + 1) self.new }
    {
        self.read(rows, columns, n, r);
        let valid = self.word % 2 == 1;
        self.word /= 2;
        self.known -= 1;
        valid
    }
}
