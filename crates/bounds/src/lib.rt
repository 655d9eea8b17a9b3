#![tactic(auto)]
// The tables that tell which events are worth joining to a chain: where each state's and each length's events stand, and the least weights of an
// event of each length and of a chain of each number of steps. They are kept in the work area; specs/Model/Places.antt says where.
ghost use Rattle.std.specs.Prelude.{◌≡◌, ◌+◌, ◌-◌, ◌≤◌, ◌<◌, length, set, cond, eqb};
ghost use Rattle.code.specs.Model.Steps.{most_steps};
ghost use Rattle.bounds.specs.declared.Joining.TheVariants.{Skipped, Complete};
ghost use Rattle.bounds.specs.Model.Places.{state_count, length_count, light_place, area_size};
ghost use Rattle.bounds.specs.Model.Tables.{first_of, noted, opened, carried, least_sum, filled, indexed, closed, is_zero_loop, lightest, light_of, whole_at, whole_kept, next_length, beginning, following, decided, Fits, Small, ToWeigh, ToLook, ToFollow, ToDecide};

use events::Event;
use poly::word::Word;

// ---- places of the work area, each where a table begins; specs/Model/Places.antt says what stands there

pub const FIRST_AT: usize = 0;

pub const STATE_END_AT: usize = 512;

pub const LEAST_AT: usize = 1024;

pub const LENGTH_END_AT: usize = 1280;

pub const START_AT: usize = 1536;

pub const FILL_AT: usize = 1792;

pub const BITS_AT: usize = 2048;

pub const END_AT: usize = 2049;

pub const LIGHT_AT: usize = 2050;

const WHOLE_AT: usize = 2051;

// How many states and how many lengths, 0 among them, the tables have.
const STATES: usize = 256;

const LENGTHS: usize = 137;

// More than any chain may weigh.
const TOO_HEAVY: u64 = 255;

// ---- chains

// A chain begun: the length of its first event (0 before there is one), the steps and the weight that are left to it, and the inputs so far.
#[derive(Clone, Copy)]
pub struct Chain {
    pub first: u64,
    pub steps: u64,
    pub budget: u64,
    pub inputs: Word,
}

// What an event comes to: it is passed over, it completes a chain, or it is joined and more follow.
#[derive(Clone, Copy, PartialEq, Eq)]
pub enum Joining {
    Skipped,
    Complete,
    Continued,
}

// ---- noting events

// One event, which stands before place `after`, is noted under its state and its length.
pub fn note(work: &mut [u64], e: Event, after: usize)
    requires { (area_size ≤ length work.old) × Fits e }
    ensures { work.new ≡ noted work.old e after }
{
    let state = STATE_END_AT + e.state as usize;
    let last = LENGTH_END_AT + e.length as usize;
    let least = LEAST_AT + e.length as usize;
    work[state] = after as u64;
    work[last] = after as u64;
    work[least] = e.weight.min(work[least]);
}

// The tables of lengths are made ready for the events of one state, which end before place `end`.
pub fn open_state(work: &mut [u64], end: usize)
    requires { area_size ≤ length work.old }
    ensures { work.new ≡ opened end work.old }
{
    work[END_AT] = end as u64;
    for l in 0..LENGTHS {
        work[LEAST_AT + l] = TOO_HEAVY;
        work[LENGTH_END_AT + l] = 0;
    }
}

// Places of first events from places after last ones.
fn carry(work: &mut [u64], ends: usize, starts: usize, n: usize, from: usize)
    requires { (ends + n ≤ length work.old) × (starts + n < length work.old) }
    ensures { work.new ≡ carried ends starts n from work.old }
{
    let mut at = from as u64;
    for j in 0..n {
        let end = work[ends + j];
        work[starts + j] = at;
        at = at.max(end);
    }
    work[starts + n] = at;
}

// The least weight of k steps.
fn least_sum(work: &[u64], k: u64) -> u64
    requires { Small work.now × (k ≤ most_steps) }
    ensures { result ≡ least_sum work.now k k }
{
    let mut least = TOO_HEAVY;
    for l in 1..k + 1 {
        let event = LEAST_AT + l as usize;
        let rest = FILL_AT + (k - l) as usize;
        least = least.min(work[event] + work[rest]);
    }
    least
}

// The least weights of chains of 1 step to all steps of a word, from that of no step on.
fn fill(work: &mut [u64])
    requires { Small work.old }
    ensures { work.new ≡ filled work.old }
{
    work[FILL_AT] = 0;
    let bits = work[BITS_AT];
    for k in 1..bits + 1 {
        let w = least_sum(work, k);
        work[FILL_AT + k as usize] = w;
    }
}

// Once all events are noted: where each state's events begin.
pub fn index_states(work: &mut [u64], bits: u64)
    requires { area_size ≤ length work.old }
    ensures { work.new ≡ indexed bits work.old }
{
    carry(work, STATE_END_AT, FIRST_AT, STATES, 0);
    work[BITS_AT] = bits;
}

// Once the events of a state are noted, which begin at place `from`.
pub fn close_state(work: &mut [u64], from: usize)
    requires { Small work.old }
    ensures { work.new ≡ closed from work.old }
{
    carry(work, LENGTH_END_AT, START_AT, LENGTHS, from);
    fill(work);
}

// An event of one step that weighs nothing, whose input is 0.
fn is_zero_loop(e: Event) -> bool
    ensures { result ≡ is_zero_loop e }
{
    e.length == 1 && e.weight == 0 && e.low == 0 && e.high == 0
}

// The least weight of an event of two steps or more.
fn lightest(work: &[u64]) -> u64
    requires { Small work.now }
    ensures { result ≡ lightest work.now (length_count - 2) }
{
    let mut least = TOO_HEAVY;
    for l in 2..LENGTHS {
        least = least.min(work[LEAST_AT + l]);
    }
    least
}

fn light_of(work: &[u64], e: Event, from: usize) -> u64
    requires { ToWeigh work.now from }
    ensures { result ≡ light_of work.now e from }
{
    if is_zero_loop(e) && work[START_AT + 2] as usize == from + 1 {
        return lightest(work);
    }
    0
}

// Once a state's tables are closed: where its first event e, at place `from`, is the zero loop, what the others weigh at least.
pub fn weigh_others(work: &mut [u64], e: Event, from: usize)
    requires { ToWeigh work.old from }
    ensures { work.new ≡ set work.old light_place (light_of work.old e from) }
{
    let w = light_of(work, e, from);
    work[LIGHT_AT] = w;
}

// A state without events.
pub fn weigh_none(work: &mut [u64])
    requires { area_size ≤ length work.old }
    ensures { work.new ≡ set work.old light_place 0 }
{
    work[LIGHT_AT] = 0;
}

// A weight that no word of state i is below.
pub fn whole_of(work: &[u64], i: usize) -> u64
    requires { (area_size ≤ length work.now) × (i < state_count) }
    ensures { result ≡ whole_at work.now i }
{
    work[WHOLE_AT + i]
}

// The tables at hand are those of state i: what all steps of a word weigh at least is kept.
pub fn keep_whole(work: &mut [u64], i: usize)
    requires { Small work.old × (i < state_count) }
    ensures { work.new ≡ whole_kept i work.old }
{
    let bits = work[BITS_AT] as usize;
    let w = work[FILL_AT + bits];
    work[WHOLE_AT + i] = w;
}

// The place of the first event of state i or above.
pub fn first_of(work: &[u64], i: usize) -> usize
    requires { (area_size ≤ length work.now) × (i ≤ state_count) }
    ensures { result ≡ first_of work.now i }
{
    work[FIRST_AT + i] as usize
}

// The place of the first length from l on that may begin a chain of `left` steps that weighs `budget`.
fn next_length(work: &[u64], left: u64, budget: u64, l: u64) -> usize
    requires { ToLook work.now left l }
    ensures { result ≡ next_length work.now left budget l }
{
    for k in l..left + 1 {
        let event = LEAST_AT + k as usize;
        let rest = FILL_AT + (left - k) as usize;
        if work[event] + work[rest] <= budget {
            return work[START_AT + k as usize] as usize;
        }
    }
    work[END_AT] as usize
}

// The first event to look at, where `at` paths of at most `room` are counted.
pub fn begin(work: &[u64], at: usize, room: usize, begun: Chain) -> usize
    requires { Small work.now × (begun.steps ≤ most_steps) }
    ensures { result ≡ beginning work.now at room begun }
{
    if room < at {
        return work[END_AT] as usize;
    }
    next_length(work, begun.steps, begun.budget, 1)
}

// The event to look at after that at place k, which has length l.
pub fn follow(work: &[u64], at: usize, room: usize, begun: Chain, l: u64, k: usize) -> usize
    requires { ToFollow work.now begun l k }
    ensures { result ≡ following work.now at room begun l k }
{
    if room < at {
        return work[END_AT] as usize;
    }
    if k + 1 < work[START_AT + (l + 1) as usize] as usize {
        return k + 1;
    }
    next_length(work, begun.steps, begun.budget, l + 1)
}

// What the last event comes to.
fn last(begun: Chain, e: Event) -> Joining
    ensures { result ≡ cond (eqb e.weight begun.budget) Complete Skipped }
{
    if e.weight == begun.budget {
        return Joining::Complete;
    }
    Joining::Skipped
}

// What event e comes to.
pub fn decide(work: &[u64], begun: Chain, e: Event) -> Joining
    requires { ToDecide work.now begun e }
    ensures { result ≡ decided work.now begun e }
{
    if begun.steps < e.length {
        return Joining::Skipped;
    }
    if begun.budget < e.weight {
        return Joining::Skipped;
    }
    if e.length == begun.steps {
        return last(begun, e);
    }
    if begun.budget - e.weight < work[LIGHT_AT] {
        return last(begun, e);
    }
    if e.weight + work[FILL_AT + (begun.steps - e.length) as usize] <= begun.budget {
        return Joining::Continued;
    }
    Joining::Skipped
}
