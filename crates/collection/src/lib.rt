#![tactic(auto)]
// The error events of a code, collected into a lent table in their order: for each state and length a walk backwards from the state, cut where the
// least weights of `needed` show that no event can come of it.
ghost use Rattle.std.specs.Prelude.{◌≡◌, ◌+◌, ◌*◌, ◌/◌, ◌^◌, ◌<◌, ◌≤◌, length, set};
ghost use Rattle.order.specs.Questions.{work_size};
ghost use Rattle.order.specs.Answers.{order_in};
ghost use Rattle.order.specs.Model.Accepted.{AcceptedCode, Accepted};
ghost use Rattle.code.specs.Links.{steps_of};
ghost use Rattle.code.specs.Model.Steps.{most_steps};
ghost use Rattle.needed.specs.Model.Tables.{Tables};
ghost use Rattle.collection.specs.Model.Backward.{goes_on, earlier, finished, found, first, appends, decided, ways_on, last_of, decided_last, Walkable, Back, TwoBack, Descent};
ghost use Rattle.collection.specs.Model.Gathered.{Gathered};

use code::link::Link;
use events::{Event, clear_events, put_event};
use lists::clear;
use needed::schedule::{prepare_for, turn_count, turn_for};
use needed::tables::{HALF_AT, LENGTH_AT, THRESHOLD_AT, need_at, step_at};
use order::record::OrderRecord;
use order::refusal::Refusal;

// ---- the walk backwards

// A node: the state, the steps still to be taken back, and the weight and the inputs of the steps that follow.
#[derive(Clone, Copy)]
pub struct Node {
    pub state: u64,
    pub left: u64,
    pub weight: u64,
    pub low: u64,
    pub high: u64,
}

// What is decided of a node: no event comes of it, it is an event, or its walk goes on.
#[derive(Clone, Copy, PartialEq, Eq)]
pub enum Decision {
    Cut,
    Event,
    On,
}

// Of two nodes, which go on.
#[derive(Clone, Copy, PartialEq, Eq)]
pub enum Branches {
    Neither,
    Low,
    High,
    Both,
}

// Whether an event below the threshold may still come of the node.
fn goes_on(work: &[u64], node: Node) -> bool
    requires { Tables work.now × Walkable node }
    ensures { result ≡ goes_on work.now node }
{
    if node.left == work[LENGTH_AT] {
        return true;
    }
    node.weight + need_at(work, node.left, node.state) < work[THRESHOLD_AT]
}

// What is decided of a node that goes on, where so many steps are left.
fn decide_last(at: usize, room: usize, left: u64) -> Decision
    ensures { result ≡ decided_last at room left }
{
    if room < at {
        return Decision::Cut;
    }
    if left == 0 {
        return Decision::Event;
    }
    Decision::On
}

fn decide(work: &[u64], at: usize, room: usize, node: Node) -> Decision
    requires { Tables work.now × Walkable node }
    ensures { result ≡ decided work.now at room node }
{
    if !goes_on(work, node) {
        return Decision::Cut;
    }
    decide_last(at, room, node.left)
}

// The node one step back, the register's highest bit being `top`.
fn step_back(work: &[u64], node: Node, top: u64) -> Node
    requires { Back work.now node top }
    ensures { result ≡ earlier work.now node top }
{
    let state = node.state / 2 + top * work[HALF_AT];
    let step = step_at(work, state, node.state % 2);
    Node {
        state,
        left: node.left - 1,
        weight: node.weight + step,
        low: (node.low << 1) + node.state % 2,
        high: (node.high << 1) + (node.low >> 63),
    }
}

fn ways_on(work: &[u64], low: Node, high: Node) -> Branches
    requires { TwoBack work.now low high }
    ensures { result ≡ ways_on work.now low high }
{
    match (goes_on(work, low), goes_on(work, high)) {
        (false, false) => Branches::Neither,
        (true, false) => Branches::Low,
        (false, true) => Branches::High,
        (true, true) => Branches::Both,
    }
}

// The last of the two that goes on, if any does.
fn last_of(ways: Branches, low: Node, high: Node) -> Option<Node>
    ensures { result ≡ last_of ways low high }
{
    match ways {
        Branches::Neither => None,
        Branches::Low => Some(low),
        Branches::High | Branches::Both => Some(high),
    }
}

// The event of a node with no step left.
fn finish(work: &[u64], node: Node) -> Event
    requires { Tables work.now }
    ensures { result ≡ finished work.now node }
{
    Event {
        state: node.state,
        length: work[LENGTH_AT],
        weight: node.weight,
        low: node.low,
        high: node.high,
    }
}

// The node that turn k begins with, where a word has so many steps.
fn first_node(steps: u64, k: u64) -> Node
    requires { (1 ≤ steps) × (steps ≤ most_steps) }
    ensures { result ≡ first steps k }
{
    Node {
        state: k / steps,
        left: k % steps + 1,
        weight: 0,
        low: 0,
        high: 0,
    }
}

// ---- the event table

// An event is stored at `at` where that is in the table, and counted in any case.
fn push_event(table: &mut [Event], at: usize, e: Event) -> usize
    requires { at + 1 < 2 ^ 64 }
    ensures { (table.new ≡ set table.old at e) × (result ≡ at + 1) }
{
    if at < table.len() {
        put_event(table, at, e);
    }
    at + 1
}

// The events that come of the node are appended at `at`; the position after them. A node of which one node before goes on is followed in the loop;
// where both go on, the first is followed by a call.
fn descend(work: &[u64], table: &mut [Event], at: usize, node: Node) -> usize
    requires { Descent work.now table.old at node }
    ensures { (table.new, result) ≡ appends (found work.now node) (table.old, at) }
{
    let room = table.len();
    let mut next = at;
    let mut here = node;
    let mut what = decide(work, at, room, node);
    while what == Decision::On {
        let low = step_back(work, here, 0);
        let high = step_back(work, here, 1);
        let ways = ways_on(work, low, high);
        if ways == Branches::Both {
            next = descend(work, table, next, low);
        }
        let Some(last) = last_of(ways, low, high) else {
            return next;
        };
        here = last;
        what = decide_last(next, room, here.left);
    }
    if what == Decision::Event {
        return push_event(table, next, finish(work, here));
    }
    next
}

// The collection for an accepted order: how many events there are, and the table has them first and zero records after them; or they are too many for the
// table, and then nothing is said of it. The work area ends as zeros.
pub fn gather(order: OrderRecord, events: &mut [Event], work: &mut [u64]) -> Result<usize, Refusal>
    requires { Accepted (order_in order) × (work_size ≤ length work.old) }
    ensures { Gathered (order_in order) events.old events.new work.old work.new result }
{
    let link = Link::new(order);
    clear_events(events);
    prepare_for(link, work);
    let mut at = 0;
    for k in 0..turn_count(link) {
        turn_for(link, work, k);
        let node = first_node(link.steps(), k);
        at = descend(work, events, at, node);
    }
    clear(work, 0);
    if events.len() < at {
        return Err(Refusal::TooManyEvents);
    }
    Ok(at)
}
