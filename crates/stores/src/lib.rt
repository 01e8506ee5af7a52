// A list stored place after place: values copied or filled in, and bytes. An inner crate: its callers meet what it asks.
#![tactic(auto)]

ghost use Rattle.std.specs.Prelude.{◌+◌, ◌<◌, ◌≤◌, pos, get_or, length, replicate, reverse, ◌≡◌};
ghost use Rattle.model.specs.Basics.{pick, tab};
ghost use Rattle.std.proofs.lemmas.List.Edits.{sets};

// Stores a byte at m places, from place k on.
pub fn put_bytes(bitmap: &mut [u8], k: usize, m: usize, byte: u8)
    requires { k + m ≤ length bitmap.old }
    ensures { bitmap.new ≡ sets bitmap.old k (replicate m byte) }
{
    // One byte is stored at once: most short rows have one, and a call of fill would cost more.
    if m == 1 {
        bitmap[k] = byte;
        return;
    }
    bitmap[k..k + m].fill(byte);
}

// Eight bits, all the same.
pub fn byte_of(on: bool) -> u8
    ensures { result ≡ pick on 255 0 }
{
    if on { 255 } else { 0 }
}

// Copies four values: all are read before one is written, so that they are moved at once.
fn copy_four(values: &[i64], p: usize, out: &mut [i64], k: usize)
    requires p_in_bounds { p + 4 ≤ length values.now }
    requires k_in_bounds { k + 4 ≤ length out.old }
    ensures { out.new ≡ sets out.old k (tab (λ i. get_or values.now i (pos 0)) p 4) }
{
    let four: [i64; 4] = *values[p..].first_chunk().unwrap();
    out[k..k + 4].copy_from_slice(&four);
}

// Copies fewer than nine values: the first four and the last four, which may overlap, or one after the other.
// Four are moved at once, where a copy of a length not known before would be a call.
fn copy_short(values: &[i64], a: usize, n: usize, out: &mut [i64], at: usize)
    requires n_bound { n < 9 }
    requires n_in_bounds { a + n ≤ length values.now }
    requires n_in_bounds_2 { at + n ≤ length out.old }
    ensures { out.new ≡ sets out.old at (tab (λ i. get_or values.now i (pos 0)) a n) }
{
    if n < 4 {
        for i in 0..n {
            out[at + i] = values[a + i];
        }
        return;
    }
    let last = n - 4;
    copy_four(values, a, out, at);
    copy_four(values, a + last, out, at + last);
}

// Copies eight values: all are read before one is written, so that they are moved at once.
fn copy_eight(values: &[i64], p: usize, out: &mut [i64], k: usize)
    requires p_in_bounds { p + 8 ≤ length values.now }
    requires k_in_bounds { k + 8 ≤ length out.old }
    ensures { out.new ≡ sets out.old k (tab (λ i. get_or values.now i (pos 0)) p 8) }
{
    let eight: [i64; 8] = *values[p..].first_chunk().unwrap();
    out[k..k + 8].copy_from_slice(&eight);
}

// Copies the n values from value a on, from place at on: eight after eight, then the last eight, of which some may be copied already. A copy of
// all at once would need memmove of whoever links the archives.
pub fn copy_values(values: &[i64], a: usize, n: usize, out: &mut [i64], at: usize)
    requires n_in_bounds { a + n ≤ length values.now }
    requires n_in_bounds_2 { at + n ≤ length out.old }
    ensures { out.new ≡ sets out.old at (tab (λ i. get_or values.now i (pos 0)) a n) }
{
    if n < 9 {
        copy_short(values, a, n, out, at);
        return;
    }
    for i in 0..n / 8 {
        copy_eight(values, a + 8 * i, out, at + 8 * i);
    }
    let last = n - 8;
    copy_eight(values, a + last, out, at + last);
}

// Copies fewer than eight values, last first.
fn turn_short(values: &[i64], a: usize, n: usize, out: &mut [i64], at: usize)
    requires n_bound { n < 8 }
    requires n_in_bounds { a + n ≤ length values.now }
    requires n_in_bounds_2 { at + n ≤ length out.old }
    ensures { out.new ≡ sets out.old at (reverse (tab (λ i. get_or values.now i (pos 0)) a n)) }
{
    for i in 0..n {
        out[at + i] = values[a + (n - 1 - i)];
    }
}

// Copies eight values, last first: all are read before one is written, so that they are moved at once.
fn turn_eight(values: &[i64], p: usize, out: &mut [i64], k: usize)
    requires p_in_bounds { p + 8 ≤ length values.now }
    requires k_in_bounds { k + 8 ≤ length out.old }
    ensures { out.new ≡ sets out.old k (reverse (tab (λ i. get_or values.now i (pos 0)) p 8)) }
{
    let mut eight: [i64; 8] = *values[p..].first_chunk().unwrap();
    eight.reverse();
    out[k..k + 8].copy_from_slice(&eight);
}

// Copies the n values from value a on, last first, eight at a time and then singly; they are written upwards, which caches like best.
pub fn copy_backward(values: &[i64], a: usize, n: usize, out: &mut [i64], at: usize)
    requires n_in_bounds { a + n ≤ length values.now }
    requires n_in_bounds_2 { at + n ≤ length out.old }
    ensures { out.new ≡ sets out.old at (reverse (tab (λ i. get_or values.now i (pos 0)) a n)) }
{
    let eights = n / 8;
    for i in 0..eights {
        turn_eight(values, a + (n - 8 * (i + 1)), out, at + 8 * i);
    }
    turn_short(values, a, n % 8, out, at + 8 * eights);
}

// Stores a value at n places, from place at on.
pub fn fill_values(v: i64, n: usize, out: &mut [i64], at: usize)
    requires { at + n ≤ length out.old }
    ensures { out.new ≡ sets out.old at (replicate n v) }
{
    out[at..at + n].fill(v);
}
