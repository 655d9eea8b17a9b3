#![tactic(auto)]
// One polynomial for a set of lengths: events are collected for the longest, and of the candidates those are left, length by length, whose first undetected
// weight is largest.
ghost use Rattle.std.specs.Prelude.{◌≡◌, ◌&&◌, ◌-◌, ◌≤◌, length};
ghost use Rattle.lists.specs.Lists.{all};
ghost use Rattle.order.specs.Questions.{first_no, from_to, longest_word};
ghost use Rattle.order.specs.Refusals.{asked};
ghost use Rattle.order.specs.Answers.{order_in};
ghost use Rattle.row.specs.Answered.{answered_as};
ghost use Rattle.jobs.specs.Jobs.{search_tables};
ghost use Rattle.set.specs.Calls.{falling, set_questions, set_call};
ghost use Rattle.set.specs.Model.Plans.{PlannedFor, SomeLengths};

use calls::{ask, run};
use events::Event;
use jobs::{Job, Plan, Tables};
use order::questions::{EVERYTHING, HIGHEST_VERSION, LONGEST_WORD, ask_shape, from_to};
use order::record::{OrderRecord, with_length};
use order::refusal::Refusal;
use row::Row;
use search::choosing;

// ---- the questions

// Question 17: are there 1 to 8 lengths, each below the one before?
fn is_length_list(lengths: &[u64]) -> bool
    ensures { result ≡ (from_to 1 8 (length lengths.now) && falling lengths.now) }
{
    from_to(1, 8, lengths.len() as u64) && lengths.is_sorted_by(|before, next| next < before)
}

// Question 5 of every length.
fn all_long_enough(v: u64, lengths: &[u64]) -> bool
    ensures { result ≡ all (from_to v longest_word) lengths.now }
{
    lengths.iter().all(|&bits| from_to(v, LONGEST_WORD, bits))
}

// All questions before 13. A word of v bits passes question 5, so that the first part asks 2, 3 and 4 alone.
fn ask_set(
    order: OrderRecord,
    lengths: &[u64],
    plain: usize,
    undetected: usize,
    size: usize,
) -> Result<(), Refusal>
    ensures { asked result ≡ first_no (set_questions (order_in order) lengths.now plain undetected size) }
{
    ask_shape(
        HIGHEST_VERSION,
        LONGEST_WORD,
        order.version,
        order.n,
        order.v,
        order.v,
    )?;
    if !is_length_list(lengths) {
        return Err(Refusal::LengthList);
    }
    if !all_long_enough(order.v, lengths) {
        return Err(Refusal::WordLength);
    }
    let shortest = with_length(lengths[lengths.len() - 1], order);
    ask(choosing(shortest), plain, undetected, size)
}

// ---- the plan

// For one length the best is chosen as the search chooses it: narrowing by one length changes nothing.
fn plan_for<'a>(order: OrderRecord, lengths: &'a [u64]) -> Plan<'a>
    requires { SomeLengths lengths.now }
    ensures { PlannedFor (order_in order) lengths.now result }
{
    let longest = with_length(lengths[0], order);
    if lengths.len() == 1 {
        return choosing(longest);
    }
    Plan {
        order: longest,
        takes: EVERYTHING,
        bits: longest.bits,
        shorter: &lengths[1..],
        job: Job::ChooseFor,
    }
}

// ---- the call

// The best check polynomial of degree m for words of each of these lengths, the longest first: the order's own N is not looked at. Tables and counts are left
// as by the search for the longest length, and how many of those left share the counts is told. Refused with 13, which is about the longest, or with 14,
// about each, all that is lent is zero; refused with an earlier number, nothing is changed.
pub fn search_set(
    order: OrderRecord,
    lengths: &[u64],
    events: &mut [Event],
    paths: &mut [u64],
    plain: &mut [u64],
    undetected: &mut [u64],
    work: &mut [u64],
) -> Result<Row, Refusal>
    ensures { (answered_as result, search_tables events.new paths.new plain.new undetected.new work.new) ≡ set_call (order_in order) lengths.now (search_tables events.old paths.old plain.old undetected.old work.old) }
{
    ask_set(order, lengths, plain.len(), undetected.len(), work.len())?;
    let plan = plan_for(order, lengths);
    let tables = Tables {
        events,
        paths,
        plain,
        undetected,
        work,
    };
    run(Ok(()), plan, tables)
}
