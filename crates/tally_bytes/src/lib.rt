// The tally in bytes: the finished counts of stations 0 to 15, then their refused counts, eight bytes each. An inner crate: its callers
// meet what it asks.
#![tactic(auto)]

ghost use Rattle.std.specs.Prelude.{◌+◌, ◌≤◌, length, ◌≡◌};
ghost use Rattle.tally.specs.Tallies.{tally_of};
ghost use Rattle.tally_bytes.specs.Bytes.{counts_from, tally_in, with_tally};

use tally::Tally;
use wire::{decode, encode};

// The counts of the sixteen stations in the 128 bytes that begin at `at`.
fn get_counts(bytes: &[u8], at: usize) -> [u64; 16]
    requires { at + 128 ≤ length bytes.now }
    ensures { result ≡ counts_from at bytes.now }
{
    let mut counts = [0; 16];
    decode(&bytes[at..at + 128], &mut counts);
    counts
}

#[tactic(auto, unfolding(crate::specs::Bytes::tally_in))]
pub fn get_tally(bytes: &[u8]) -> Tally
    requires { 256 ≤ length bytes.now }
    ensures { tally_of result ≡ tally_in bytes.now }
{
    let finished = get_counts(bytes, 0);
    let refused = get_counts(bytes, 128);
    Tally { finished, refused }
}

pub fn put_tally(tally: Tally, bytes: &mut [u8])
    requires { 256 ≤ length bytes.old }
    ensures { bytes.new ≡ with_tally (tally_of tally) bytes.old }
{
    encode(&tally.finished, bytes);
    encode(&tally.refused, &mut bytes[128..]);
}
