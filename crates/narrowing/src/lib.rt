#![tactic(auto)]
// Who is left after each of several lengths: the first undetected weights of every candidate at the lengths listed so far are one number in base 128, and
// those whose number is largest stay.
// What is `pub` here is for the crate above; docs/DECISIONS.md lists it as internal.
ghost use Rattle.std.specs.Prelude.{length};
ghost use Rattle.choice.specs.Model.Steps.{CheckDegree};
ghost use Rattle.narrowing.specs.Model.Firsts.{NoFirsts, Added, LargestBelow, Kept, ToAddFirsts};

use choice::{candidate, count_candidates};
use undetected::{Listing, first_weight};

// The number of each candidate; `scale` is what the next weight is worth.
#[derive(Clone, Copy)]
pub struct Firsts {
    pub scale: u64,
    pub ranks: [u64; 2048],
}

// No length is listed yet.
pub fn no_firsts() -> Firsts
    ensures { NoFirsts result }
{
    Firsts {
        scale: 1,
        ranks: [0; 2048],
    }
}

// The paths of one more length are listed: its first weights go on top.
pub fn add_firsts(firsts: Firsts, listing: Listing<'_>, m: u64) -> Firsts
    requires { ToAddFirsts listing.entries m firsts }
    ensures { Added m listing.entry.entries listing.entry.table.now listing.entry.plain.now firsts result }
{
    let n = count_candidates(m);
    let scale = firsts.scale;
    let before = &firsts.ranks;
    let mut ranks = [0; 2048];
    for k in 0..n {
        let first = first_weight(listing, m, candidate(m, k));
        let shorter = before[k];
        ranks[k] = first * scale + shorter;
    }
    let next = scale * 128;
    Firsts { scale: next, ranks }
}

// The largest of the ranks, 0 of none.
fn largest_rank(ranks: &[u64]) -> u64
    ensures { LargestBelow ranks.now (length ranks.now) result }
{
    ranks.iter().copied().max().unwrap_or(0)
}

// Those of degree m whose number is largest stay.
pub fn keep_largest(firsts: Firsts, m: u64) -> [bool; 2048]
    requires { CheckDegree m }
    ensures { Kept m firsts result }
{
    let n = count_candidates(m);
    let ranks = &firsts.ranks[..n];
    let largest = largest_rank(ranks);
    let mut kept = [false; 2048];
    for (k, rank) in ranks.iter().enumerate() {
        kept[k] = largest <= *rank;
    }
    kept
}
