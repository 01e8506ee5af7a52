// Words of 64 bits of a bitmap, read and written at any bit, and ones counted by them. An inner crate: its callers meet what it asks.
#![tactic(auto)]

ghost use Rattle.std.specs.Prelude.{◌%◌, ◌*◌, ◌+◌, ◌/◌, ◌<◌, ◌^◌, ◌≤◌, length, ◌≡◌};
ghost use Rattle.bit_words.specs.Words.{low_bits};
ghost use Rattle.bitmap.specs.Push.{push_bits, trues};
ghost use Rattle.model.specs.Basics.{tab};
ghost use Rattle.model.specs.Bitmap.{bit_at, bytes_for};
ghost use Rattle.std.specs.Int.Count.{ones};

// The bits of the eight bytes from byte k on.
fn word_at(bitmap: &[u8], k: usize) -> u64
    requires { k + 8 ≤ length bitmap.now }
    ensures { low_bits result 64 ≡ tab (bit_at bitmap.now) (8 * k) 64 }
{
    u64::from_le_bytes(*bitmap[k..].first_chunk().unwrap())
}

// The 64 bits from bit s of byte k on, the first lowest.
pub fn word_from(bitmap: &[u8], k: usize, s: usize) -> u64
    requires s_bound { s < 8 }
    requires s_in_bounds { bytes_for (8 * k + s + 64) ≤ length bitmap.now }
    ensures { low_bits result 64 ≡ tab (bit_at bitmap.now) (8 * k + s) 64 }
{
    let low = word_at(bitmap, k) >> s;
    if s == 0 {
        return low;
    }
    low | (u64::from(bitmap[k + 8]) << (64 - s))
}

// Stores a word as the eight bytes from byte k on.
fn put_word(out: &mut [u8], k: usize, word: u64)
    requires { k + 8 ≤ length out.old }
    ensures { out.new ≡ push_bits out.old (8 * k) (low_bits word 64) }
{
    // A loop, for speed: it becomes one store here, where copy_from_slice does not.
    let bytes = word.to_le_bytes();
    for i in 0..8 {
        out[k + i] = bytes[i];
    }
}

// Appends the 64 bits of a word.
pub fn push_word(out: &mut [u8], at: usize, word: u64)
    requires { bytes_for (at + 64) ≤ length out.old }
    ensures { out.new ≡ push_bits out.old at (low_bits word 64) }
{
    let k = at / 8;
    let s = at % 8;
    if s == 0 {
        put_word(out, k, word);
        return;
    }
    out[k] |= ((word << s) & 255) as u8;
    put_word(out, k + 1, word >> (8 - s));
}

// How many of the m lowest bits of a byte are set: the others are masked.
fn ones_below(byte: u8, m: usize) -> usize
    requires { m < 8 }
    ensures { result ≡ ones (byte % 2 ^ m) }
{
    let mask = (1 << m) - 1;
    (byte & mask).count_ones() as usize
}

// How many of the n bits from a byte on are set: whole bytes, then the bits that are left.
fn count_bytes(bitmap: &[u8], from: usize, n: usize) -> usize
    requires { from + bytes_for n ≤ length bitmap.now }
    ensures { result ≡ trues (tab (bit_at bitmap.now) (8 * from) n) }
{
    let end = from + n / 8;
    let mut found = 0;
    for byte in &bitmap[from..end] {
        found += byte.count_ones() as usize;
    }
    if n % 8 == 0 {
        return found;
    }
    found + ones_below(bitmap[end], n % 8)
}

// How many of the first n bits are set, word by word.
pub fn count_set(bitmap: &[u8], n: usize) -> usize
    requires { bytes_for n ≤ length bitmap.now }
    ensures { result ≡ trues (tab (bit_at bitmap.now) 0 n) }
{
    let words = n / 64;
    let mut found = 0;
    for i in 0..words {
        found += word_at(bitmap, 8 * i).count_ones() as usize;
    }
    found + count_bytes(bitmap, 8 * words, n % 64)
}
