// The tally in a lent slice of numbers, and a recipe's answer told with it.
ghost use Rattle.std.specs.Prelude.{◌+◌, ◌≤◌, ltb, get_or, length, ◌||◌, ◌≡◌};
ghost use Rattle.model.specs.Basics.{pick};
ghost use Rattle.model.specs.Contract.{told};
ghost use Rattle.tally.specs.Tallies.{tally_of};
ghost use Rattle.typed.specs.Tallies.{Settled, counts_at, tally_at, with_tally};

use crate::{put_counts, put_list};
use tally::{RecipeAnswer, Tally};

// The counts or the tally have fewer places than they take.
fn is_short(counts: usize, tally: usize) -> bool
    ensures { result ≡ ltb counts 4 || ltb tally 32 }
{
    (counts < 4) | (tally < 32)
}

// The station that the recipe is run for: none of the sixteen where the call cannot be told, so that it counts for nobody and only clears the trays.
pub fn station_for(counts: usize, tally: usize, station: u32) -> u32
    ensures { result ≡ pick (ltb counts 4 || ltb tally 32) 16 station }
{
    if is_short(counts, tally) {
        return 16;
    }
    station
}

// The k that a recipe is graded by: 0 where the call cannot be told, so that 12 leaves output and tally as they are and only the trays are cleared.
pub fn k_for(counts: usize, tally: usize, k: u64) -> u64
    ensures { result ≡ pick (ltb counts 4 || ltb tally 32) 0 k }
{
    if is_short(counts, tally) {
        return 0;
    }
    k
}

// The number at a place, 0 past the end.
fn count_at(s: &[u64], i: usize) -> u64
    ensures { result ≡ get_or s.now i 0 }
{
    s.get(i).copied().unwrap_or(0)
}

// The counts of the sixteen stations from place `at` on.
fn get_counts(s: &[u64], at: usize) -> [u64; 16]
    requires { at ≤ 16 }
    ensures { result ≡ counts_at at s.now }
{
    let mut counts = [0u64; 16];
    for i in 0..16 {
        counts[i] = count_at(s, at + i);
    }
    counts
}

pub fn get_tally(s: &[u64]) -> Tally
    ensures { tally_of result ≡ tally_at s.now }
{
    let finished = get_counts(s, 0);
    let refused = get_counts(s, 16);
    Tally { finished, refused }
}

fn put_tally(tally: Tally, s: &mut [u64])
    requires { 32 ≤ length s.old }
    ensures { s.new ≡ with_tally (tally_of tally) s.old }
{
    let finished = tally.finished;
    let refused = tally.refused;
    put_counts(&finished, s);
    put_counts(&refused, &mut s[16..]);
}

// Tells a recipe's answer, and puts the tally after it; 100 where the counts or the tally are too short, which then keep their content.
pub fn settle(done: RecipeAnswer, counts: &mut [u64], tally: &mut [u64]) -> u32
    ensures { Settled (told done.answer) (tally_of done.tally) result counts tally }
{
    if is_short(counts.len(), tally.len()) {
        return 100;
    }
    let after = done.tally;
    put_tally(after, tally);
    let answer = done.answer;
    put_list(answer, counts)
}
