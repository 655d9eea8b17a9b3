#![tactic(auto)]
// A call over lent tables: its questions are asked once, its job is done, and where it is refused late all that is lent is cleared.
// What is `pub` here is for the crates above; docs/DECISIONS.md lists it as internal.
ghost use Rattle.std.specs.Prelude.{◌≡◌, [], ◌∷◌, length};
ghost use Rattle.order.specs.Questions.{first_no, room, work_size, check_polynomial};
ghost use Rattle.order.specs.Answer.{unless_refused};
ghost use Rattle.order.specs.Refusals.{asked};
ghost use Rattle.order.specs.Answers.{order_in};
ghost use Rattle.row.specs.Answered.{answered_as};
ghost use Rattle.jobs.specs.Jobs.{ran};
ghost use Rattle.jobs.specs.Lent.{lent, left};
ghost use Rattle.jobs.specs.Model.Steps.{row_order, ToMake};
ghost use Rattle.calls.specs.Calls.{job_questions, questions, call as called};
ghost use Rattle.calls.specs.Model.Plans.{call_in, Sound};

use events::clear_events;
use jobs::{Job, Plan, Tables, make, row_order};
use lists::clear;
use order::questions::{WORK_SIZE, counted_weights, is_check_polynomial};
use order::record::ask_order;
use order::refusal::Refusal;
use row::Row;

// ---- the questions

// Question 10 of a lent list, which has so many entries and needs so many.
fn ask_room(needed: u64, entries: usize) -> Result<(), Refusal>
    ensures { asked result ≡ first_no (room needed entries ∷ []) }
{
    if (entries as u64) < needed {
        return Err(Refusal::Room);
    }
    Ok(())
}

// Question 10 of both counts and the work area.
fn ask_both(entries: u64, plain: usize, undetected: usize, size: usize) -> Result<(), Refusal>
    ensures { asked result ≡ first_no (room entries plain ∷ room entries undetected ∷ room work_size size ∷ []) }
{
    ask_room(entries, plain)?;
    ask_room(entries, undetected)?;
    ask_room(WORK_SIZE as u64, size)
}

// Questions 10 and 11, as far as the job takes what they are about.
fn ask_job(
    job: Job,
    m: u64,
    entries: u64,
    plain: usize,
    undetected: usize,
    size: usize,
) -> Result<(), Refusal>
    ensures { asked result ≡ first_no (job_questions job m entries plain undetected size) }
{
    match job {
        Job::Collect => ask_room(WORK_SIZE as u64, size),
        Job::List => {
            ask_room(entries, plain)?;
            ask_room(WORK_SIZE as u64, size)
        }
        Job::Choose => ask_both(entries, plain, undetected, size),
        Job::ChooseFor => ask_both(entries, plain, undetected, size),
        Job::Count(p) => {
            ask_both(entries, plain, undetected, size)?;
            if !is_check_polynomial(m, p) {
                return Err(Refusal::CheckPolynomial);
            }
            Ok(())
        }
    }
}

// All questions of a plan before 13.
pub fn ask(plan: Plan<'_>, plain: usize, undetected: usize, size: usize) -> Result<(), Refusal>
    ensures { asked result ≡ first_no (questions (call_in plan.entry) plain undetected size) }
{
    ask_order(plan.takes, row_order(plan))?;
    ask_job(
        plan.job,
        plan.order.m,
        counted_weights(plan.order.d),
        plain,
        undetected,
        size,
    )
}

// ---- the walk

// A plan is run, unless its questions have refused: what follows an accepted order asks nothing again. Refused so, nothing is changed; refused later, all
// that is lent is zero.
pub fn run(why: Result<(), Refusal>, plan: Plan<'_>, tables: Tables<'_>) -> Result<Row, Refusal>
    requires { asked why ≡ 0 → ToMake plan tables.plain.now tables.undetected.now tables.work.now }
    ensures { (answered_as result, left tables.exit) ≡ unless_refused (asked why) (lent tables.entry) (ran plan.entry.job plan.entry.shorter.now (order_in plan.entry.order) (row_order plan.entry) (lent tables.entry)) }
{
    why?;
    let Tables {
        events,
        paths,
        plain,
        undetected,
        work,
    } = tables;
    let lent = Tables {
        events: &mut *events,
        paths: &mut *paths,
        plain: &mut *plain,
        undetected: &mut *undetected,
        work: &mut *work,
    };
    let made = make(plan, lent);
    if made.is_err() {
        clear_events(events);
        clear(paths, 0);
        clear(plain, 0);
        clear(undetected, 0);
        clear(work, 0);
    }
    made
}

// A plan is asked about, and run.
pub fn call(plan: Plan<'_>, tables: Tables<'_>) -> Result<Row, Refusal>
    requires { Sound (call_in plan) }
    ensures { (answered_as result, left tables.exit) ≡ called (call_in plan.entry) (lent tables.entry) }
{
    let Tables {
        events,
        paths,
        plain,
        undetected,
        work,
    } = tables;
    let why = ask(plan, plain.len(), undetected.len(), work.len());
    let lent = Tables {
        events: &mut *events,
        paths: &mut *paths,
        plain: &mut *plain,
        undetected: &mut *undetected,
        work: &mut *work,
    };
    // Named: the proof was tried without, and what is lent does not come back before the end.
    let answer = run(why, plan, lent);
    answer
}
