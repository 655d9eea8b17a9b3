#![tactic(auto)]
// How many listed words of each weight a polynomial divides, and the first weight of which it divides one.
// What is `pub` here is for the crates above; docs/DECISIONS.md lists it as internal.
ghost use Rattle.std.specs.Prelude.{◌≡◌};
ghost use Rattle.undetected.specs.FirstUndetected.{first_above0};
ghost use Rattle.undetected.specs.Model.Steps.{even_between, up_to, divided_counts, counted_from, Readable, ToCountBetween, ToCountFrom, ToFindFirst};

use parity::Checks;
use poly::word::Word;

// The words that were listed, of so many bits, and how many there are of each weight; so many weights are looked at.
#[derive(Clone, Copy)]
pub struct Listing<'a> {
    pub table: &'a [u64],
    pub plain: &'a [u64],
    pub bits: u64,
    pub entries: usize,
    pub ghost readable: { Readable bits entries table.now plain.now },
}

// How many of the words from place `from` to before place `to` pass every check. Counting stops at one more than the limit.
pub fn count_up_to(table: &[u64], from: usize, to: usize, checks: &Checks, limit: u64) -> u64
    requires { ToCountBetween table.now from to }
    ensures { result ≡ up_to limit (even_between checks.now.rows checks.now.count table.now from to) }
{
    let mut found = 0;
    for k in from..to {
        let at = 2 * k;
        let word = Word {
            low: table[at],
            high: table[at + 1],
        };
        if checks.all_even(word) {
            found += 1;
            if limit < found {
                return found;
            }
        }
    }
    found
}

// The undetected counts of p from entry `first` of the lists on; entry j is of weight j + 1. The words of entry `first` begin at place `start`.
pub fn count_from(
    listing: Listing<'_>,
    undetected: &mut [u64],
    m: u64,
    p: u64,
    first: usize,
    start: usize,
)
    requires { ToCountFrom listing.entries m p first start listing.plain.now undetected.old }
    ensures { undetected.new ≡ counted_from m p listing.entry.table.now listing.entry.plain.now first listing.entry.entries undetected.old }
{
    let checks = Checks::new(listing.bits, m, p);
    let mut at = start;
    for j in first..listing.entries {
        let all = listing.plain[j];
        let next = at + all as usize;
        undetected[j] = count_up_to(listing.table, at, next, &checks, all);
        at = next;
    }
}

// The weight of the first listed word that p divides, one more than the last weight where it divides none. Entry i is of weight i + 1.
pub fn first_weight(listing: Listing<'_>, m: u64, p: u64) -> u64
    requires { ToFindFirst listing.entries m p }
    ensures { result ≡ first_above0 1 (divided_counts m listing.entry.table.now listing.entry.plain.now listing.entry.entries p) }
{
    let checks = Checks::new(listing.bits, m, p);
    let mut from = 0;
    for i in 0..listing.entries {
        let to = from + listing.plain[i] as usize;
        if count_up_to(listing.table, from, to, &checks, 0) != 0 {
            return i as u64 + 1;
        }
        from = to;
    }
    listing.entries as u64 + 1
}
