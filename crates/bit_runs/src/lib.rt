// Runs of bits copied from any bit to any bit, and turned round, eight and sixty-four at a time. An inner crate: its callers meet what it asks.
#![tactic(auto)]

ghost use Rattle.std.specs.Prelude.{◌*◌, ◌+◌, ◌<◌, ◌^◌, ◌≤◌, length, reverse, ◌≡◌};
ghost use Rattle.bit_words.specs.Words.{low_bits};
ghost use Rattle.bitmap.specs.Push.{push_bits};
ghost use Rattle.model.specs.Basics.{tab};
ghost use Rattle.model.specs.Bitmap.{bit_at, bytes_for};

// Appends the m lowest bits of a byte that has none above them.
pub fn push_few(out: &mut [u8], at: usize, bits: u8, m: usize)
    requires m_nonzero { 0 < m }
    requires m_bound { m ≤ 8 }
    requires bits_bound { bits < 2 ^ m }
    requires m_in_bounds { bytes_for (at + m) ≤ length out.old }
    ensures { out.new ≡ push_bits out.old at (low_bits bits m) }
{
    let k = at / 8;
    let s = at % 8;
    if s == 0 {
        out[k] = bits;
        return;
    }
    out[k] |= bits << s;
    if 8 < s + m {
        out[k + 1] = bits >> (8 - s);
    }
}

// The m bits from bit s of byte k on, the first lowest.
pub fn few_at(bitmap: &[u8], k: usize, s: usize, m: usize) -> u8
    requires s_bound { s < 8 }
    requires m_nonzero { 0 < m }
    requires m_bound { m ≤ 8 }
    requires m_in_bounds { bytes_for (8 * k + s + m) ≤ length bitmap.now }
    ensures m_value { low_bits result m ≡ tab (bit_at bitmap.now) (8 * k + s) m }
    ensures upper_bound { result < 2 ^ m }
{
    let lowest = u8::MAX >> (8 - m);
    let low = bitmap[k] >> s;
    if s + m <= 8 {
        return low & lowest;
    }
    let high = bitmap[k + 1] << (8 - s);
    (low | high) & lowest
}

// Appends the n bits from bit s of byte k on, eight at a time.
fn push_eights(bitmap: &[u8], k: usize, s: usize, n: usize, out: &mut [u8], at: usize)
    requires s_bound { s < 8 }
    requires n_in_bounds { bytes_for (8 * k + s + n) ≤ length bitmap.now }
    requires n_in_bounds_2 { bytes_for (at + n) ≤ length out.old }
    requires n_bound { at + n < 18446744073709551616 }
    ensures { out.new ≡ push_bits out.old at (tab (bit_at bitmap.now) (8 * k + s) n) }
{
    let eights = n / 8;
    for i in 0..eights {
        let bits = few_at(bitmap, k + i, s, 8);
        push_few(out, at + 8 * i, bits, 8);
    }
    let left = n % 8;
    if left == 0 {
        return;
    }
    let bits = few_at(bitmap, k + eights, s, left);
    push_few(out, at + 8 * eights, bits, left);
}

// Appends the n bits from bit s of byte k on, sixty-four at a time, and then eight.
pub fn push_copied(bitmap: &[u8], k: usize, s: usize, n: usize, out: &mut [u8], at: usize)
    requires s_bound { s < 8 }
    requires n_in_bounds { bytes_for (8 * k + s + n) ≤ length bitmap.now }
    requires n_in_bounds_2 { bytes_for (at + n) ≤ length out.old }
    requires n_bound { at + n < 18446744073709551616 }
    ensures { out.new ≡ push_bits out.old at (tab (bit_at bitmap.now) (8 * k + s) n) }
{
    let words = n / 64;
    for i in 0..words {
        let word = bit_words::word_from(bitmap, k + 8 * i, s);
        bit_words::push_word(out, at + 64 * i, word);
    }
    push_eights(bitmap, k + 8 * words, s, n % 64, out, at + 64 * words);
}

// The m lowest bits of a byte that has none above them, the last first.
fn few_turned(byte: u8, m: usize) -> u8
    requires m_nonzero { 0 < m }
    requires m_bound { m ≤ 8 }
    requires byte_bound { byte < 2 ^ m }
    ensures m_value { low_bits result m ≡ reverse (low_bits byte m) }
    ensures upper_bound { result < 2 ^ m }
{
    byte.reverse_bits() >> (8 - m)
}

// Appends the n bits from bit s of byte k on, the last first, eight at a time.
pub fn push_turned(bitmap: &[u8], k: usize, s: usize, n: usize, out: &mut [u8], at: usize)
    requires s_bound { s < 8 }
    requires n_in_bounds { bytes_for (8 * k + s + n) ≤ length bitmap.now }
    requires n_in_bounds_2 { bytes_for (at + n) ≤ length out.old }
    requires n_bound { at + n < 18446744073709551616 }
    ensures { out.new ≡ push_bits out.old at (reverse (tab (bit_at bitmap.now) (8 * k + s) n)) }
{
    let eights = n / 8;
    let left = n % 8;
    let end = k + eights + (s + left) / 8;
    let t = (s + left) % 8;
    for i in 0..eights {
        let bits = few_at(bitmap, end - 1 - i, t, 8);
        let back = few_turned(bits, 8);
        push_few(out, at + 8 * i, back, 8);
    }
    if left == 0 {
        return;
    }
    let bits = few_at(bitmap, k, s, left);
    let back = few_turned(bits, left);
    push_few(out, at + 8 * eights, back, left);
}
