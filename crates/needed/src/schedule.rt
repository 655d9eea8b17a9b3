// The turns of the collection as an order gives them: for each state that begins events, a length from 1 to the steps of a word.
ghost use Rattle.std.specs.Prelude.{◌≡◌, ◌+◌, ◌*◌, ◌/◌, ◌^◌, ◌≤◌, length};
ghost use Rattle.order.specs.Answers.{order_in};
ghost use Rattle.code.specs.Links.{steps_of, event_states};
ghost use Rattle.needed.specs.Model.Tables.{tables_end, prepared, turned, Tables};

use super::tables::{prepare, turn};
use code::link::Link;

// The work area is prepared for the link.
pub fn prepare_for(link: Link, work: &mut [u64])
    requires { tables_end ≤ length work.old }
    ensures { work.new ≡ prepared (order_in link.order).generators link.order.v link.order.d work.old }
{
    prepare(link.generators(), work, link.order.v, link.order.d);
}

// How many turns there are.
pub fn turn_count(link: Link) -> u64
    ensures { result ≡ event_states (order_in link.order) * steps_of (order_in link.order) }
{
    link.event_states() * link.steps()
}

// The words of a row of least weights, eight states to a word.
fn row_words(v: u64) -> u64
    requires { v ≤ 8 }
    ensures { result ≡ (2 ^ v + 7) / 8 }
{
    ((1 << v) + 7) / 8
}

// Turn k: the length, and for a new state its least weights.
pub fn turn_for(link: Link, work: &mut [u64], k: u64)
    requires { Tables work.old }
    ensures { work.new ≡ turned ((2 ^ link.order.v + 7) / 8) (steps_of (order_in link.order)) k work.old }
{
    turn(work, row_words(link.order.v), link.steps(), k);
}
