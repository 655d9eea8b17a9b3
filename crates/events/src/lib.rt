#![tactic(auto)]
// The entries of the event table: one is read, one is stored, all are cleared, and those of few steps are counted.
ghost use Rattle.std.specs.Prelude.{◌≡◌, ◌≤◌, ◌<◌, length, get_or, set, replicate};
ghost use Rattle.events.specs.Events.{no_event};
ghost use Rattle.events.specs.Model.Counting.{count_within};

use lists::clear;

// An entry of the event table: document 01's record of state, length, weight and the input in two halves, low half first.
#[repr(C)]
#[derive(Clone, Copy)]
pub struct Event {
    pub state: u64,
    pub length: u64,
    pub weight: u64,
    pub low: u64,
    pub high: u64,
}

// The record of zeros, which stands where there is no event.
pub const NO_EVENT: Event = Event {
    state: 0,
    length: 0,
    weight: 0,
    low: 0,
    high: 0,
};

pub fn event_at(events: &[Event], k: usize) -> Event
    requires { k < length events.now }
    ensures { result ≡ get_or events.now k no_event }
{
    events[k]
}

pub fn put_event(table: &mut [Event], at: usize, e: Event)
    requires { at < length table.old }
    ensures { table.new ≡ set table.old at e }
{
    table[at] = e;
}

pub fn clear_events(table: &mut [Event])
    ensures { table.new ≡ replicate (length table.old) no_event }
{
    clear(table, NO_EVENT);
}

// How many of the entries have at most so many steps.
pub fn count_within(events: &[Event], steps: u64) -> usize
    ensures { result ≡ count_within events.now (length events.now) steps }
{
    events.iter().filter(|e| e.length <= steps).count()
}
