#![tactic(auto)]
// A shorter length quoted from the events of a longer one: they are collected for the order's own length, and the row is made for the shorter one from
// those that fit it.
ghost use Rattle.std.specs.Prelude.{◌≡◌};
ghost use Rattle.order.specs.Answers.{order_in};
ghost use Rattle.row.specs.Answered.{answered_as};
ghost use Rattle.jobs.specs.Jobs.{search_tables};
ghost use Rattle.calls.specs.Model.Plans.{call_in};
ghost use Rattle.quote.specs.Calls.{longest_quoted, quoting, quote_call};

use calls::call;
use events::Event;
use jobs::{Job, Plan, Tables};
use order::questions::{LONGEST_WORD, Takes};
use order::record::OrderRecord;
use order::refusal::Refusal;
use row::Row;

// The longest length that may be quoted: the order's own, where that has at most 128 bits.
fn longest_quoted(bits: u64) -> u64
    ensures { result ≡ longest_quoted bits }
{
    if bits <= LONGEST_WORD {
        return bits;
    }
    0
}

// The plan: tail-biting links, lengths up to the order's own, and everything.
fn quoting(order: OrderRecord, bits: u64) -> Plan<'static>
    ensures call { call_in result ≡ quoting (order_in order) bits }
    ensures order { result.order ≡ order }
{
    Plan {
        order,
        takes: Takes {
            versions: 1,
            longest: longest_quoted(order.bits),
            degree: true,
            threshold: true,
        },
        bits,
        shorter: &[],
        job: Job::Choose,
    }
}

// The row for words of `bits` bits, at most as long as the order's, from the events of the order: those are left as the event table, and the other tables
// as the search for the shorter words leaves them. Refused with 13, which is about the order's own length, or with 14, about the shorter one, all that is
// lent is zero; refused with an earlier number, nothing is changed.
pub fn quote(
    order: OrderRecord,
    bits: u64,
    events: &mut [Event],
    paths: &mut [u64],
    plain: &mut [u64],
    undetected: &mut [u64],
    work: &mut [u64],
) -> Result<Row, Refusal>
    ensures { (answered_as result, search_tables events.new paths.new plain.new undetected.new work.new) ≡ quote_call (order_in order) bits (search_tables events.old paths.old plain.old undetected.old work.old) }
{
    let plan = quoting(order, bits);
    let tables = Tables {
        events,
        paths,
        plain,
        undetected,
        work,
    };
    call(plan, tables)
}
