#![tactic(auto)]
// What `dso` prints: from the bytes of one record to the bytes of its row, or of its refusal.
// An order that was read is asked nothing again: the search is run, and its answer is laid out.
ghost use Rattle.std.specs.Prelude.{◌≡◌, ◌≤◌, length, replicate};
ghost use Rattle.lists.specs.Lists.{padded};
ghost use Rattle.order.specs.Questions.{first_no, work_size};
ghost use Rattle.order.specs.Order.{everything, order_questions};
ghost use Rattle.order.specs.Answers.{order_in};
ghost use Rattle.row.specs.Answered.{answered_as};
ghost use Rattle.events.specs.Events.{no_event};
ghost use Rattle.jobs.specs.Jobs.{search_tables};
ghost use Rattle.search.specs.Calls.{search_questions, search_call};
ghost use Rattle.text.specs.Text.{answer_text};
ghost use Rattle.text.specs.Model.Steps.{RowAccepted, Laid};
ghost use Rattle.print.specs.Printed.{lent, printed_search, printed};
ghost use Rattle.print.specs.Model.Steps.{counted};

use calls::run;
use events::NO_EVENT;
use jobs::Tables;
use order::record::{OrderRecord, read_order};
use order::refusal::Refusal;
use row::Row;
use search::choosing;
use text::{RowText, lay_refusal, lay_row};

// ---- the tables that are lent

// The search, with a table for 512 events.
fn search_events(
    order: OrderRecord,
    paths: &mut [u64],
    plain: &mut [u64],
    undetected: &mut [u64],
    work: &mut [u64],
) -> Result<Row, Refusal>
    requires { first_no (search_questions (order_in order) (length plain.old) (length undetected.old) (length work.old)) ≡ 0 }
    ensures { (answered_as result, (plain.new, undetected.new)) ≡ counted (search_call (order_in order) (search_tables (replicate 512 no_event) paths.old plain.old undetected.old work.old)) }
{
    let plan = choosing(order);
    let mut events = [NO_EVENT; 512];
    let tables = Tables {
        events: &mut events,
        paths,
        plain,
        undetected,
        work,
    };
    run(Ok(()), plan, tables)
}

// The search with every table but the counts.
fn search_paths(
    order: OrderRecord,
    plain: &mut [u64],
    undetected: &mut [u64],
) -> Result<Row, Refusal>
    requires { first_no (search_questions (order_in order) (length plain.old) (length undetected.old) work_size) ≡ 0 }
    ensures { (answered_as result, (plain.new, undetected.new)) ≡ counted (search_call (order_in order) (search_tables (replicate 512 no_event) (replicate 4096 0) plain.old undetected.old (replicate work_size 0))) }
{
    let mut paths = [0; 4096];
    let mut work = [0; 8192];
    search_events(order, &mut paths, plain, undetected, &mut work)
}

// ---- the text

fn print_answer(
    o: OrderRecord,
    a: Result<Row, Refusal>,
    plain: &[u64],
    undetected: &[u64],
    text: &mut [u8],
) -> usize
    requires { RowAccepted o.n o.d (length plain.now) (length undetected.now) × (4096 ≤ length text.old) }
    ensures { Laid (answer_text (order_in o) (answered_as a) plain.now undetected.now) text.old text.new result }
{
    match a {
        Ok(row) => {
            let found = RowText {
                order: o,
                row,
                plain,
                undetected,
            };
            lay_row(found, text)
        }
        Err(late) => lay_refusal(u64::from(late), text),
    }
}

fn print_order(o: OrderRecord, text: &mut [u8]) -> usize
    requires { (first_no (order_questions everything (order_in o)) ≡ 0) × (4096 ≤ length text.old) }
    ensures { Laid (printed_search (order_in o) (search_call (order_in o) lent)) text.old text.new result }
{
    let mut plain = [0; 63];
    let mut undetected = [0; 63];
    let a = search_paths(o, &mut plain, &mut undetected);
    print_answer(o, a, &plain, &undetected, text)
}

// What `dso` prints for a record, and zeros after it; how many bytes it is.
pub fn print(bytes: &[u8], text: &mut [u8]) -> usize
    requires { 4096 ≤ length text.old }
    ensures { (text.new ≡ padded (length text.old) 0 (printed bytes.now)) × (result ≡ length (printed bytes.now)) }
{
    match read_order(bytes) {
        Ok(order) => print_order(order, text),
        Err(refusal) => lay_refusal(u64::from(refusal), text),
    }
}
