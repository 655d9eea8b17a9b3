#![tactic(auto)]
// The calls for hosts in C and Rust: an order, numbers and slices in, structs out. include/dohvrin.h says what each takes and leaves. Calls
// of one shape stay apart, since each is a symbol for C.
ghost use Rattle.std.specs.Prelude.{◌≡◌, ◌+◌, ◌*◌, ◌^◌};
ghost use Rattle.order.specs.Order.{read};
ghost use Rattle.order.specs.Answers.{order_in};
ghost use Rattle.text.specs.Calls.{row_call, refusal_call};
ghost use Rattle.crc.specs.Check.{append_call, strip_call, test_call};
ghost use Rattle.code.specs.Calls.{weigh_call, encode_call};
ghost use Rattle.jobs.specs.Jobs.{search_tables};
ghost use Rattle.search.specs.Calls.{event_tables, path_tables, collect_call, list_call, search_call, count_call};
ghost use Rattle.quote.specs.Calls.{quote_call};
ghost use Rattle.set.specs.Calls.{set_call};
ghost use Rattle.answers.specs.Answers.{number_answer, word_answer, told, told_with, stripped_answer, tested_answer, numbered, row_with, answer_in, reading_of, part_answer};

use answers::{HostAnswer, PartAnswer, Reading, RowAnswer, refusal_number};
use code::{encode, weigh};
use crc::{append, strip, test};
use events::Event;
use order::record::{OrderRecord, read_order};
use paths::{part, paths_to};
use poly::word::make;
use quote::quote;
use search::{collect, count, list, search};
use set::search_set;
use text::{write_refusal, write_row};

// The word of a message.
#[unsafe(no_mangle)]
pub extern "C" fn dohvrin_append(
    bits: u64,
    m: u64,
    polynomial: u64,
    low: u64,
    high: u64,
) -> HostAnswer
    ensures { result ≡ told word_answer (append_call bits m polynomial (high * 2 ^ 64 + low)) }
{
    append(bits, m, polynomial, make(low, high)).into()
}

// The message of a word, or its nonzero remainder.
#[unsafe(no_mangle)]
pub extern "C" fn dohvrin_strip(
    bits: u64,
    m: u64,
    polynomial: u64,
    low: u64,
    high: u64,
) -> HostAnswer
    ensures { result ≡ told stripped_answer (strip_call bits m polynomial (high * 2 ^ 64 + low)) }
{
    strip(bits, m, polynomial, make(low, high)).into()
}

// Whether the polynomial divides a word.
#[unsafe(no_mangle)]
pub extern "C" fn dohvrin_test(
    bits: u64,
    m: u64,
    polynomial: u64,
    low: u64,
    high: u64,
) -> HostAnswer
    ensures { result ≡ told tested_answer (test_call bits m polynomial (high * 2 ^ 64 + low)) }
{
    test(bits, m, polynomial, make(low, high)).into()
}

// The weight of a word.
#[unsafe(no_mangle)]
pub extern "C" fn dohvrin_weigh(order: OrderRecord, low: u64, high: u64) -> HostAnswer
    ensures { result ≡ told number_answer (weigh_call (order_in order) (high * 2 ^ 64 + low)) }
{
    weigh(order, make(low, high)).into()
}

// The codeword of a word.
#[unsafe(no_mangle)]
pub extern "C" fn dohvrin_encode(order: OrderRecord, low: u64, high: u64, output: &mut [u8]) -> u64
    ensures { (result, output.new) ≡ numbered (encode_call (order_in order) (high * 2 ^ 64 + low) output.old) }
{
    refusal_number(encode(order, make(low, high), output))
}

// The events of an order's code, into the lent table.
#[unsafe(no_mangle)]
pub extern "C" fn dohvrin_collect(
    order: OrderRecord,
    events: &mut [Event],
    work: &mut [u64],
) -> RowAnswer
    ensures { (result, event_tables events.new work.new) ≡ row_with (collect_call (order_in order) (event_tables events.old work.old)) }
{
    collect(order, events, work).into()
}

// The order of a record.
#[unsafe(no_mangle)]
pub extern "C" fn dohvrin_read_order(bytes: &[u8]) -> Reading
    ensures { result ≡ reading_of (read bytes.now) }
{
    read_order(bytes).into()
}

// The paths of an order's code, into the lent tables.
#[unsafe(no_mangle)]
pub extern "C" fn dohvrin_list(
    order: OrderRecord,
    events: &mut [Event],
    paths: &mut [u64],
    plain: &mut [u64],
    work: &mut [u64],
) -> RowAnswer
    ensures { (result, path_tables events.new paths.new plain.new work.new) ≡ row_with (list_call (order_in order) (path_tables events.old paths.old plain.old work.old)) }
{
    list(order, events, paths, plain, work).into()
}

// The best check polynomial of an order, and how many share its counts.
#[unsafe(no_mangle)]
pub extern "C" fn dohvrin_search(
    order: OrderRecord,
    events: &mut [Event],
    paths: &mut [u64],
    plain: &mut [u64],
    undetected: &mut [u64],
    work: &mut [u64],
) -> RowAnswer
    ensures { (result, search_tables events.new paths.new plain.new undetected.new work.new) ≡ row_with (search_call (order_in order) (search_tables events.old paths.old plain.old undetected.old work.old)) }
{
    search(order, events, paths, plain, undetected, work).into()
}

// The best check polynomial for words of `bits` bits, with the events of the order's own length.
#[unsafe(no_mangle)]
pub extern "C" fn dohvrin_quote(
    order: OrderRecord,
    bits: u64,
    events: &mut [Event],
    paths: &mut [u64],
    plain: &mut [u64],
    undetected: &mut [u64],
    work: &mut [u64],
) -> RowAnswer
    ensures { (result, search_tables events.new paths.new plain.new undetected.new work.new) ≡ row_with (quote_call (order_in order) bits (search_tables events.old paths.old plain.old undetected.old work.old)) }
{
    quote(order, bits, events, paths, plain, undetected, work).into()
}

// One check polynomial for a set of lengths, the longest first.
#[unsafe(no_mangle)]
pub extern "C" fn dohvrin_search_set(
    order: OrderRecord,
    lengths: &[u64],
    events: &mut [Event],
    paths: &mut [u64],
    plain: &mut [u64],
    undetected: &mut [u64],
    work: &mut [u64],
) -> RowAnswer
    ensures { (result, search_tables events.new paths.new plain.new undetected.new work.new) ≡ row_with (set_call (order_in order) lengths.now (search_tables events.old paths.old plain.old undetected.old work.old)) }
{
    search_set(order, lengths, events, paths, plain, undetected, work).into()
}

// The undetected counts of one polynomial.
#[unsafe(no_mangle)]
pub extern "C" fn dohvrin_count(
    order: OrderRecord,
    polynomial: u64,
    events: &mut [Event],
    paths: &mut [u64],
    plain: &mut [u64],
    undetected: &mut [u64],
    work: &mut [u64],
) -> RowAnswer
    ensures { (result, search_tables events.new paths.new plain.new undetected.new work.new) ≡ row_with (count_call (order_in order) polynomial (search_tables events.old paths.old plain.old undetected.old work.old)) }
{
    count(order, polynomial, events, paths, plain, undetected, work).into()
}

// The words of one weight, from 1 on, in a path table.
#[unsafe(no_mangle)]
pub extern "C" fn dohvrin_part(table: &[u64], counts: &[u64], w: u64) -> PartAnswer
    ensures { result ≡ part_answer counts.now w table.now }
{
    match part(table, counts, w) {
        Ok(words) => {
            let limit = (table.len() / 2) as u64;
            let before = paths_to(counts, w as usize - 1, limit).unwrap();
            PartAnswer {
                refusal: 0,
                start: 2 * before,
                numbers: words.len() as u64,
            }
        }
        Err(refusal) => PartAnswer {
            refusal: u64::from(refusal),
            start: 0,
            numbers: 0,
        },
    }
}

// The text of what a call answered for an order: a row, or a refusal.
#[unsafe(no_mangle)]
pub extern "C" fn dohvrin_row_text(
    order: OrderRecord,
    row: RowAnswer,
    plain: &[u64],
    undetected: &[u64],
    text: &mut [u8],
) -> HostAnswer
    ensures { (result, text.new) ≡ told_with number_answer (row_call (order_in order) (answer_in row) plain.now undetected.now text.old) }
{
    write_row(order, row.into(), plain, undetected, text).into()
}

// The text of a refusal.
#[unsafe(no_mangle)]
pub extern "C" fn dohvrin_refusal_text(number: u64, text: &mut [u8]) -> HostAnswer
    ensures { (result, text.new) ≡ told_with number_answer (refusal_call number text.old) }
{
    write_refusal(number, text).into()
}
