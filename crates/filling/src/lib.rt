#![tactic(auto)]
// The path table filled from a collected event table, weight by weight: the events are chained, and each weight's words are sorted and counted.
ghost use Rattle.std.specs.Prelude.{◌≡◌, ◌≤◌, length};
ghost use Rattle.order.specs.Answers.{order_in};
ghost use Rattle.paths.specs.Model.Joining.{unbegun_first};
ghost use Rattle.filling.specs.Model.Filling.{settled_paths, settled_counts, Settles, ToFill, Filled};

use bounds::index_states;
use chains::{list_weight, survey};
use code::link::Link;
use events::Event;
use lists::clear;
use order::record::OrderRecord;
use order::refusal::Refusal;
use radix::sort;

// What a chain that is not begun has as its first event's length: 0, or 1 on a terminated link, where no chain is turned.
fn unbegun_first(link: Link) -> u64
    ensures { result ≡ unbegun_first (order_in link.order) }
{
    u64::from(link.is_terminated())
}

// ---- weight by weight

// The words of weight w, appended from place `at` to before place `next`, are sorted and counted, where the table took them all. The counts begin with
// weight 1.
fn settle(order: OrderRecord, paths: &mut [u64], plain: &mut [u64], at: usize, next: usize, w: u64)
    requires { Settles paths.old plain.old at next w order.bits }
    ensures { (paths.new ≡ settled_paths paths.old at next) × (plain.new ≡ settled_counts (length paths.old) plain.old at next w) }
{
    if paths.len() / 2 < next {
        return;
    }
    sort(paths, at, next, order.bits);
    plain[w as usize - 1] = (next - at) as u64;
}

// The path table and the plain counts filled from the events that were collected, weight by weight, from 1 on, since no path weighs 0: how many paths there are;
// or they are too many for the table, and then nothing is said of the two. The work area ends as zeros. They may have been collected for longer
// words: events that do not fit are passed over.
pub fn fill(
    order: OrderRecord,
    events: &[Event],
    paths: &mut [u64],
    plain: &mut [u64],
    work: &mut [u64],
) -> Result<usize, Refusal>
    requires { ToFill (order_in order) events.now plain.old work.old }
    ensures { Filled (order_in order) paths.old paths.new plain.old plain.new work.old work.new result }
{
    let link = Link::new(order);
    clear(paths, 0);
    clear(plain, 0);
    survey(events, work, 0, events.len());
    index_states(work, link.steps());
    let states = link.event_states() as usize;
    let first = unbegun_first(link);
    let room = paths.len() / 2;
    let mut at = 0;
    for w in 1..order.d {
        let next = list_weight(events, work, paths, at, states, first, w);
        settle(order, paths, plain, at, next, w);
        at = next;
        if room < at {
            break;
        }
    }
    clear(work, 0);
    if room < at {
        return Err(Refusal::TooManyPaths);
    }
    Ok(at)
}
