// What null slots hold, written at the places of nulls after the values, bits read sixty-four and eight at a time. An inner crate: its callers meet what it asks.
#![tactic(auto)]

ghost use Rattle.std.specs.Prelude.{◌*◌, ◌+◌, ◌<◌, ◌^◌, ◌≤◌, length, not, map, reverse, ◌≡◌};
ghost use Rattle.bit_words.specs.Words.{low_bits};
ghost use Rattle.model.specs.Basics.{tab};
ghost use Rattle.model.specs.Bitmap.{bit_at, bytes_for};
ghost use Rattle.null_slots.specs.Nulled.{nulled};

use column::elements;

// The m lowest bits of a word, each turned over, and none above them.
fn flipped(word: u64, m: usize) -> u64
    requires { m ≤ 64 }
    ensures m_value { map not (low_bits result m) ≡ low_bits word m }
    ensures upper_bound { result < 2 ^ m }
{
    !word & !u64::MAX.unbounded_shl(m as u32)
}

// Writes what a null slot holds at each of the m places from place at on whose bit is 0.
pub fn put_few(word: u64, m: usize, out: &mut [i64], at: usize)
    requires m_bound { m ≤ 64 }
    requires m_in_bounds { at + m ≤ length out.old }
    ensures { out.new ≡ nulled out.old at (low_bits word m) }
{
    let mut marks = flipped(word, m);
    // For speed the loop visits the nulls alone, and not each of the m places.
    while marks != 0 {
        let j = marks.trailing_zeros() as usize;
        out[at + j] = elements::UNDER_NULL;
        marks &= marks - 1;
    }
}

// The same, the last bit's place first: only the place differs, and one body with a closure for it would be longer.
fn put_few_back(word: u64, m: usize, out: &mut [i64], at: usize)
    requires m_bound { m ≤ 64 }
    requires m_in_bounds { at + m ≤ length out.old }
    ensures { out.new ≡ nulled out.old at (reverse (low_bits word m)) }
{
    let mut marks = flipped(word, m);
    while marks != 0 {
        let j = marks.trailing_zeros() as usize;
        out[at + (m - 1 - j)] = elements::UNDER_NULL;
        marks &= marks - 1;
    }
}

// Writes what a null slot holds at each of the n places from place at on whose bit is 0, bit s of byte k being the first, eight bits at a time.
fn put_eights(bits: &[u8], k: usize, s: usize, n: usize, out: &mut [i64], at: usize)
    requires s_bound { s < 8 }
    requires n_in_bounds { bytes_for (8 * k + s + n) ≤ length bits.now }
    requires n_in_bounds_2 { at + n ≤ length out.old }
    ensures { out.new ≡ nulled out.old at (tab (bit_at bits.now) (8 * k + s) n) }
{
    let eights = n / 8;
    for i in 0..eights {
        let few = bit_runs::few_at(bits, k + i, s, 8);
        put_few(u64::from(few), 8, out, at + 8 * i);
    }
    let left = n % 8;
    if left == 0 {
        return;
    }
    let few = bit_runs::few_at(bits, k + eights, s, left);
    put_few(u64::from(few), left, out, at + 8 * eights);
}

// The same, sixty-four bits at a time, and then eight.
pub fn put_nulls(bits: &[u8], k: usize, s: usize, n: usize, out: &mut [i64], at: usize)
    requires s_bound { s < 8 }
    requires n_in_bounds { bytes_for (8 * k + s + n) ≤ length bits.now }
    requires n_in_bounds_2 { at + n ≤ length out.old }
    ensures { out.new ≡ nulled out.old at (tab (bit_at bits.now) (8 * k + s) n) }
{
    let words = n / 64;
    for i in 0..words {
        let word = bit_words::word_from(bits, k + 8 * i, s);
        put_few(word, 64, out, at + 64 * i);
    }
    put_eights(bits, k + 8 * words, s, n % 64, out, at + 64 * words);
}

// The places of nulls from place at on where the bits stand last first, eight bits at a time.
fn put_eights_back(bits: &[u8], k: usize, s: usize, n: usize, out: &mut [i64], at: usize)
    requires s_bound { s < 8 }
    requires n_in_bounds { bytes_for (8 * k + s + n) ≤ length bits.now }
    requires n_in_bounds_2 { at + n ≤ length out.old }
    ensures { out.new ≡ nulled out.old at (reverse (tab (bit_at bits.now) (8 * k + s) n)) }
{
    let eights = n / 8;
    for i in 0..eights {
        let few = bit_runs::few_at(bits, k + i, s, 8);
        put_few_back(u64::from(few), 8, out, at + (n - 8 - 8 * i));
    }
    let left = n % 8;
    if left == 0 {
        return;
    }
    let few = bit_runs::few_at(bits, k + eights, s, left);
    put_few_back(u64::from(few), left, out, at);
}

// The same, sixty-four bits at a time, and then eight.
pub fn put_nulls_back(bits: &[u8], k: usize, s: usize, n: usize, out: &mut [i64], at: usize)
    requires s_bound { s < 8 }
    requires n_in_bounds { bytes_for (8 * k + s + n) ≤ length bits.now }
    requires n_in_bounds_2 { at + n ≤ length out.old }
    ensures { out.new ≡ nulled out.old at (reverse (tab (bit_at bits.now) (8 * k + s) n)) }
{
    let words = n / 64;
    for i in 0..words {
        let next = bit_words::word_from(bits, k + 8 * i, s);
        put_few_back(next, 64, out, at + (n - 64 - 64 * i));
    }
    put_eights_back(bits, k + 8 * words, s, n % 64, out, at);
}
