#![tactic(auto)]
// Chains of events of one state, joined one after another until their lengths sum to the steps of a word (document 01); the rotations of each chain,
// or the chain as it is where it is not turned, are appended to the path table. The tables of `bounds`, kept in the work area, tell which events are
// worth joining.
ghost use Rattle.std.specs.Prelude.{◌≡◌, ◌-◌, ◌≤◌, length};
ghost use Rattle.paths.specs.Model.Joining.{turns, first_or};
ghost use Rattle.poly.specs.Word.{number};
ghost use Rattle.bounds.specs.Model.Places.{area_size};
ghost use Rattle.bounds.specs.Model.Tables.{bits_at, end_at, surveyed, Small, Segment};
ghost use Rattle.rotations.specs.Model.Put.{puts};
ghost use Rattle.chains.specs.Model.Chaining.{extended, found, found_by, unbegun, fitting_end, weighed, state_listed, lighter_listed, weight_listed, Noted, ToExtend, ToEmit, ToJoin, ToChain, ToListState, ToListWeight};

use bounds::{
    BITS_AT, Chain, END_AT, Joining, begin, close_state, decide, first_of, follow, keep_whole,
    note, open_state, weigh_none, weigh_others, whole_of,
};
use events::{Event, event_at};
use poly::word::{Word, make};
use rotations::{join_input, push_turns};

// ---- a chain begun

// The length of the first event, once there is one.
fn first_or(first: u64, l: u64) -> u64
    ensures { result ≡ first_or first l }
{
    if first == 0 {
        return l;
    }
    first
}

// Event e joined to it.
fn extend(work: &[u64], begun: Chain, e: Event) -> Chain
    requires { ToExtend work.now begun e }
    ensures { result ≡ extended (bits_at work.now) begun e }
{
    let place = work[BITS_AT] - begun.steps;
    let inputs = join_input(begun.inputs, make(e.low, e.high), place);
    Chain {
        first: first_or(begun.first, e.length),
        steps: begun.steps - e.length,
        budget: begun.budget - e.weight,
        inputs,
    }
}

// The rotations of a chain that is whole.
fn emit(work: &[u64], paths: &mut [u64], at: usize, whole: Chain) -> usize
    requires { ToEmit work.now paths.old at whole }
    ensures { (paths.new, result) ≡ puts (turns (bits_at work.now) whole.first (number whole.inputs)) (paths.old, at) }
{
    let bits = work[BITS_AT];
    push_turns(paths, at, bits, whole.first, whole.inputs)
}

// A chain that is not begun: all its steps are left. `first` is 0, or 1 where a chain is not turned.
fn unbegun(work: &[u64], first: u64, w: u64) -> Chain
    requires { Small work.now }
    ensures { result ≡ unbegun (bits_at work.now) first w }
{
    Chain {
        first,
        steps: work[BITS_AT],
        budget: w,
        inputs: Word { low: 0, high: 0 },
    }
}

// The place after the last event of the state at hand.
fn end_of(work: &[u64]) -> usize
    requires { Small work.now }
    ensures { result ≡ end_at work.now }
{
    work[END_AT] as usize
}

// ---- the recursion: the steps left fall

// The words of the chains that go on with event e are appended at `at`; the position after them.
#[cycle(chain_join)]
fn join(
    events: &[Event],
    work: &[u64],
    paths: &mut [u64],
    at: usize,
    begun: Chain,
    e: Event,
) -> usize
    requires { ToJoin events.now work.now paths.old at begun e }
    ensures { (paths.new, result) ≡ puts (found_by events.now work.now begun e) (paths.old, at) }
{
    match decide(work, begun, e) {
        Joining::Skipped => at,
        Joining::Complete => {
            let whole = extend(work, begun, e);
            emit(work, paths, at, whole)
        }
        Joining::Continued => {
            let longer = extend(work, begun, e);
            chain(events, work, paths, at, longer)
        }
    }
}

// The words of all chains that begin so are appended at `at`; the position after them.
#[cycle(chain_join)]
fn chain(events: &[Event], work: &[u64], paths: &mut [u64], at: usize, begun: Chain) -> usize
    requires { ToChain events.now work.now paths.old at begun }
    ensures { (paths.new, result) ≡ puts (found events.now work.now begun) (paths.old, at) }
{
    let room = paths.len() / 2;
    let end = end_of(work);
    let mut next = at;
    let mut k = begin(work, at, room, begun);
    while k < end {
        let e = event_at(events, k);
        next = join(events, work, paths, next, begun, e);
        let after = follow(work, next, room, begun, e.length, k);
        k = after;
    }
    next
}

// ---- state by state

// The steps of a word.
fn bits_of(work: &[u64]) -> u64
    requires { area_size ≤ length work.now }
    ensures { result ≡ bits_at work.now }
{
    work[BITS_AT]
}

// The place of the first event from `from` on that is longer than `bits` steps; `to` where there is none. Events stand by length, so it is found by
// halving: to read them all would be one more pass over a table that may be large.
fn fitting_end(events: &[Event], from: usize, to: usize, bits: u64) -> usize
    requires { (to ≤ length events.now) × ((from ≤ to) × Segment events.now from to) }
    ensures { result ≡ fitting_end events.now bits to (to - from) from }
{
    from + events[from..to].partition_point(|e| e.length <= bits)
}

// The events from place `from` to before place `to` are noted in the tables.
pub fn survey(events: &[Event], work: &mut [u64], from: usize, to: usize)
    requires { (area_size ≤ length work.old) × Noted events.now from to }
    ensures { work.new ≡ surveyed events.now (to - from) from work.old }
{
    for k in from..to {
        let e = event_at(events, k);
        note(work, e, k + 1);
    }
}

// Once the tables of a state are closed, whose events stand from place `from` to before place `to`: what those weigh at least that are not the zero loop.
fn weigh_state(events: &[Event], work: &mut [u64], from: usize, to: usize)
    requires { Small work.old × Noted events.now from to }
    ensures { work.new ≡ weighed events.now from to work.old }
{
    if from < to {
        let e = event_at(events, from);
        weigh_others(work, e, from);
        return;
    }
    weigh_none(work);
}

// The words of weight w whose smallest state is i are appended at `at`; the position after them.
fn list_state(
    events: &[Event],
    work: &mut [u64],
    paths: &mut [u64],
    at: usize,
    i: usize,
    first: u64,
    w: u64,
) -> usize
    requires { ToListState events.now work.old paths.old at i first w }
    ensures { (work.new, (paths.new, result)) ≡ state_listed events.now first w i work.old (paths.old, at) }
{
    let from = first_of(work, i);
    let last = first_of(work, i + 1);
    let bits = bits_of(work);
    // a table made for longer words has events that no chain can use: they stand last
    let to = fitting_end(events, from, last, bits);
    open_state(work, to);
    survey(events, work, from, to);
    close_state(work, from);
    weigh_state(events, work, from, to);
    let begun = unbegun(work, first, w);
    chain(events, work, paths, at, begun)
}

// The same, but a state is passed over that is known to have no word so light.
fn list_lighter(
    events: &[Event],
    work: &mut [u64],
    paths: &mut [u64],
    at: usize,
    i: usize,
    first: u64,
    w: u64,
) -> usize
    requires { ToListState events.now work.old paths.old at i first w }
    ensures { (work.new, (paths.new, result)) ≡ lighter_listed events.now first w i work.old (paths.old, at) }
{
    let whole = whole_of(work, i);
    if w < whole {
        return at;
    }
    let next = list_state(events, work, paths, at, i, first, w);
    keep_whole(work, i);
    next
}

// The nonzero words of weight w, which may be 0, are appended at `at`, state by state; the position after them.
pub fn list_weight(
    events: &[Event],
    work: &mut [u64],
    paths: &mut [u64],
    at: usize,
    states: usize,
    first: u64,
    w: u64,
) -> usize
    requires { ToListWeight events.now work.old paths.old at states first w }
    ensures { (work.new, (paths.new, result)) ≡ weight_listed events.now first w states work.old (paths.old, at) }
{
    let mut next = at;
    for i in 0..states {
        next = list_lighter(events, work, paths, next, i, first, w);
    }
    next
}
