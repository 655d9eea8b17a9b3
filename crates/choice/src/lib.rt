#![tactic(auto)]
// The choice: every candidate that is offered is compared with the best so far, weight by weight, and drops out at the first weight where another counts fewer.
// Weights go by their entries in the lists of counts: entry j is of weight j + 1. Candidates go by their numbers, with a flag for each.
// What is `pub` here is for the crate above; docs/DECISIONS.md lists it as internal.
ghost use Rattle.std.specs.Prelude.{◌≡◌, [], ◌∷◌, ◌+◌, ◌-◌, ◌*◌, ◌^◌, ◌≤◌, length, slice_get};
ghost use Rattle.choice.specs.Model.Steps.{offered_by, alive_below, LeftAlive, Chose, CheckDegree, ToName, ToOffer, ToChoose, ToCompare};

use parity::Checks;
use poly::word::power;
use undetected::{Listing, count_from, count_up_to};

// The first of the candidates with the best counts, and how many have them.
#[derive(Clone, Copy)]
pub struct Outcome {
    pub polynomial: u64,
    pub shared: u64,
}

// How many candidates of degree m there are: each has a flag.
pub fn count_candidates(m: u64) -> usize
    requires { CheckDegree m }
    ensures { (result ≡ 2 ^ (m - 1)) × (result ≤ 2048) }
{
    power(m - 1) as usize
}

// Candidate k of degree m: its constant term is 1.
pub fn candidate(m: u64, k: usize) -> u64
    requires { ToName m k }
    ensures { result ≡ 2 ^ m + 2 * k + 1 }
{
    power(m) + 2 * k as u64 + 1
}

// Just polynomial p is offered.
pub fn only(m: u64, p: u64) -> [bool; 2048]
    requires { ToOffer m p }
    ensures { offered_by m result ≡ p ∷ [] }
{
    let mut offered = [false; 2048];
    let k = (p - power(m)) / 2;
    offered[k as usize] = true;
    offered
}

// Of those offered, the candidates still alive after the last weight. The undetected list comes with the counts of the first offered and is left with the best.
fn compare(
    listing: Listing<'_>,
    undetected: &mut [u64],
    m: u64,
    offered: [bool; 2048],
    first: usize,
) -> [bool; 2048]
    requires { ToCompare listing.entries m offered first listing.table.now listing.plain.now undetected.old }
    ensures { LeftAlive m listing.entry.entries (offered_by m offered) listing.entry.table.now listing.entry.plain.now undetected.old undetected.new result }
{
    let mut alive = offered;
    let n = count_candidates(m);
    'candidates: for k in first + 1..n {
        if !alive[k] {
            continue 'candidates;
        }
        let p = candidate(m, k);
        let checks = Checks::new(listing.bits, m, p);
        let mut at = 0;
        for j in 0..listing.entries {
            let next = at + listing.plain[j] as usize;
            let best = undetected[j];
            let found = count_up_to(listing.table, at, next, &checks, best);
            if best < found {
                alive[k] = false;
                continue 'candidates;
            }
            if found < best {
                alive[..k].fill(false);
                count_from(listing, undetected, m, p, j, at);
                continue 'candidates;
            }
            at = next;
        }
    }
    alive
}

// How many are alive.
fn count_alive(alive: &[bool]) -> u64
    ensures { result ≡ length (alive_below alive.now (length alive.now)) }
{
    alive.iter().filter(|flag| **flag).count() as u64
}

// The first that is alive, if any is.
fn first_alive(alive: &[bool]) -> Option<usize>
    ensures { result ≡ slice_get (alive_below alive.now (length alive.now)) 0 }
{
    alive.iter().position(|flag| *flag)
}

// The best of the candidates of degree m that are offered, by the words that were listed; where several share the best counts, the smallest. The counts are
// left in the undetected list.
pub fn choose(
    listing: Listing<'_>,
    undetected: &mut [u64],
    m: u64,
    offered: [bool; 2048],
) -> Outcome
    requires { ToChoose listing.entries m offered undetected.old }
    ensures { Chose m listing.entry.entries (offered_by m offered) listing.entry.table.now listing.entry.plain.now undetected.old undetected.new result }
{
    let n = count_candidates(m);
    let first = first_alive(&offered[..n]).unwrap();
    count_from(listing, undetected, m, candidate(m, first), 0, 0);
    let alive = compare(listing, undetected, m, offered, first);
    let left = &alive[..n];
    let shared = count_alive(left);
    let named = first_alive(left).unwrap();
    Outcome {
        polynomial: candidate(m, named),
        shared,
    }
}
