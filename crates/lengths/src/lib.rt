#![tactic(auto)]
// The lengths, besides that of the row, that a polynomial is chosen for: their paths are listed, the shortest length first, and the first undetected weights
// of all candidates are noted. What is `pub` here is for the crates above; docs/DECISIONS.md lists it as internal.
ghost use Rattle.std.specs.Prelude.{◌≡◌, ◌-◌};
ghost use Rattle.order.specs.Answers.{order_in};
ghost use Rattle.narrowing.specs.Model.Firsts.{Added, ToAdd};
ghost use Rattle.lengths.specs.Model.Noted.{ListedNext, ToListNext, ListedShorter, ToListShorter};

use events::Event;
use filling::fill;
use narrowing::{Firsts, add_firsts, no_firsts};
use order::questions::counted_weights;
use order::record::{OrderRecord, with_length};
use order::refusal::Refusal;
use undetected::Listing;

// The paths of one more length are listed: its first weights are noted.
fn note(order: OrderRecord, firsts: Firsts, paths: &[u64], plain: &[u64]) -> Firsts
    requires { ToAdd (order_in order).N ((order_in order).d - 1) (order_in order).m paths.now plain.now firsts }
    ensures { Added (order_in order).m ((order_in order).d - 1) paths.now plain.now firsts result }
{
    let entries = counted_weights(order.d) as usize;
    let listing = Listing {
        table: paths,
        plain,
        bits: order.bits,
        entries,
    };
    add_firsts(firsts, listing, order.m)
}

// One more length is listed and noted, unless its paths do not fit.
fn list_next(
    order: OrderRecord,
    firsts: Firsts,
    events: &[Event],
    paths: &mut [u64],
    plain: &mut [u64],
    work: &mut [u64],
) -> Result<Firsts, Refusal>
    requires { ToListNext (order_in order) firsts events.now plain.old work.old }
    ensures { ListedNext (order_in order) firsts result paths.old paths.new plain.old plain.new work.old work.new }
{
    fill(order, events, paths, plain, work)?;
    Ok(note(order, firsts, paths, plain))
}

// All of them, which stand with the longest first, the shortest first, so that those of the row can be listed last; nothing is listed twice.
pub fn list_shorter(
    order: OrderRecord,
    lengths: &[u64],
    events: &[Event],
    paths: &mut [u64],
    plain: &mut [u64],
    work: &mut [u64],
) -> Result<Firsts, Refusal>
    requires { ToListShorter (order_in order) lengths.now events.now plain.old work.old }
    ensures { ListedShorter (order_in order) lengths.now result paths.old work.old work.new }
{
    let mut firsts = no_firsts();
    for &bits in lengths.iter().rev() {
        firsts = list_next(with_length(bits, order), firsts, events, paths, plain, work)?;
    }
    Ok(firsts)
}
