#![tactic(auto)]
// The jobs of the calls over lent tables, for orders that were accepted: events are collected, paths listed, and the best check polynomial is chosen or the
// undetected counts of one are made. What is `pub` here is for the crates above; docs/DECISIONS.md lists it as internal.
ghost use Rattle.std.specs.Prelude.{◌≡◌, ◌-◌, length, replicate};
ghost use Rattle.order.specs.Answers.{order_in};
ghost use Rattle.row.specs.Answered.{answered_as};
ghost use Rattle.undetected.specs.Model.Steps.{Readable};
ghost use Rattle.choice.specs.Model.Steps.{offered_by, Chose, ToChoose};
ghost use Rattle.jobs.specs.Lent.{lent, left};
ghost use Rattle.jobs.specs.Model.Steps.{row_order, listed_before, LeftBy, Finished, ToFinish, ToMake, MadeAs};
ghost use Rattle.narrowing.specs.Model.Firsts.{ToAddFirsts};

use choice::{Outcome, choose, only};
use code::link::Link;
use collection::gather;
use events::{Event, count_within};
use filling::fill;
use lengths::list_shorter;
use lists::clear;
use narrowing::{Firsts, add_firsts, keep_largest};
use order::questions::{Takes, counted_weights};
use order::record::{OrderRecord, with_length};
use order::refusal::Refusal;
use row::{Row, row_of};
use undetected::Listing;

// How far a call goes: events are collected; paths are listed too; then the best polynomial is chosen, by the row's length alone or for shorter ones too, or
// the words that one divides are counted.
#[derive(Clone, Copy)]
pub enum Job {
    Collect,
    List,
    Choose,
    ChooseFor,
    Count(u64),
}

// A call: events are collected for the order, of which it takes so much; the row is for words of `bits` bits; the job says how far it goes, and may be for
// shorter lengths too, which stand with the longest first.
#[derive(Clone, Copy)]
pub struct Plan<'a> {
    pub order: OrderRecord,
    pub takes: Takes,
    pub bits: u64,
    pub shorter: &'a [u64],
    pub job: Job,
}

// What a call is lent.
#[derive(Drop)]
pub struct Tables<'a> {
    pub events: &'a mut [Event],
    pub paths: &'a mut [u64],
    pub plain: &'a mut [u64],
    pub undetected: &'a mut [u64],
    pub work: &'a mut [u64],
}

// The order of the row.
pub fn row_order(plan: Plan<'_>) -> OrderRecord
    ensures { order_in result ≡ row_order plan.entry }
{
    with_length(plan.bits, plan.order)
}

// The shorter lengths that are listed: those of the plan, where a polynomial is chosen for them.
fn listed_before<'a>(plan: Plan<'a>) -> &'a [u64]
    ensures { result.now ≡ listed_before plan.entry.job plan.entry.shorter.now }
{
    match plan.job {
        Job::ChooseFor => plan.shorter,
        _ => &[],
    }
}

// ---- what follows the listing

// What was listed, as far as weights are counted.
fn listing_of<'a>(plan: Plan<'_>, paths: &'a [u64], plain: &'a [u64]) -> Listing<'a>
    requires { Readable plan.bits (plan.order.d - 1) paths.now plain.now }
    ensures { (result.table.now ≡ paths.now) × (result.plain.now ≡ plain.now) × (result.entries ≡ plan.entry.order.d - 1) }
{
    let entries = counted_weights(plan.order.d) as usize;
    Listing {
        table: paths,
        plain,
        bits: plan.bits,
        entries,
    }
}

// Those left by the shorter lengths and by the one whose paths are listed.
fn left_by(noted: Firsts, listing: Listing<'_>, m: u64) -> [bool; 2048]
    requires { ToAddFirsts listing.entries m noted }
    ensures { LeftBy m listing.entry.entries noted listing.entry.table.now listing.entry.plain.now result }
{
    let firsts = add_firsts(noted, listing, m);
    keep_largest(firsts, m)
}

// The best of those offered by the words that were listed; its counts are left in the undetected list, with zeros after them.
fn best_of(listing: Listing<'_>, undetected: &mut [u64], m: u64, offered: [bool; 2048]) -> Outcome
    requires { ToChoose listing.entries m offered undetected.old }
    ensures { Chose m listing.entry.entries (offered_by m offered) listing.entry.table.now listing.entry.plain.now (replicate (length undetected.old) 0) undetected.new result }
{
    clear(undetected, 0);
    choose(listing, undetected, m, offered)
}

// The job is done over the listed paths. A polynomial that was given was compared with nobody: 0 share its counts.
fn finish(
    plan: Plan<'_>,
    noted: Firsts,
    events: usize,
    listed: usize,
    paths: &[u64],
    plain: &[u64],
    undetected: &mut [u64],
) -> Row
    requires { ToFinish plan.job plan.bits plan.order.m (plan.order.d - 1) noted paths.now plain.now undetected.old }
    ensures { Finished plan.entry.job plan.entry.order.m (plan.entry.order.d - 1) noted events listed paths.now plain.now undetected.old undetected.new result }
{
    let m = plan.order.m;
    match plan.job {
        Job::Collect | Job::List => row_of(events, listed, 0, 0),
        Job::Choose => {
            let listing = listing_of(plan, paths, plain);
            let best = best_of(listing, undetected, m, [true; 2048]);
            row_of(events, listed, best.polynomial, best.shared)
        }
        Job::ChooseFor => {
            let listing = listing_of(plan, paths, plain);
            let left = left_by(noted, listing, m);
            let fit = best_of(listing, undetected, m, left);
            row_of(events, listed, fit.polynomial, fit.shared)
        }
        Job::Count(p) => {
            let listing = listing_of(plan, paths, plain);
            let alone = best_of(listing, undetected, m, only(m, p));
            row_of(events, listed, alone.polynomial, 0)
        }
    }
}

// ---- the walk

// What a plan says, for accepted orders. Where it is refused, with 13 or 14, nothing is said of the tables.
pub fn make(plan: Plan<'_>, tables: Tables<'_>) -> Result<Row, Refusal>
    requires { ToMake plan tables.plain.now tables.undetected.now tables.work.now }
    ensures { MadeAs plan.entry (lent tables.entry) (answered_as result) (left tables.exit) }
{
    let Tables {
        events,
        paths,
        plain,
        undetected,
        work,
    } = tables;
    let n = gather(plan.order, events, work)?;
    if let Job::Collect = plan.job {
        return Ok(row_of(n, 0, 0, 0));
    }
    let collected = &events[..n];
    let order = row_order(plan);
    let shorter = listed_before(plan);
    let noted = list_shorter(order, shorter, collected, paths, plain, work)?;
    let at = fill(order, collected, paths, plain, work)?;
    let few = count_within(collected, Link::new(order).steps());
    Ok(finish(plan, noted, few, at, paths, plain, undetected))
}
