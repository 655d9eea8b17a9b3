#![tactic(auto)]
// What is printed: the row of an order, or a refusal, as bytes in a lent buffer.
ghost use Rattle.std.specs.Prelude.{◌≡◌, ◌≤◌, length};
ghost use Rattle.order.specs.Questions.{first_no};
ghost use Rattle.text.specs.Text.{row_text, refusal_text};
ghost use Rattle.text.specs.Calls.{handed_back, row_questions, row_call, refusal_call};
ghost use Rattle.order.specs.Answer.{accepted};
ghost use Rattle.order.specs.Refusals.{asked, answered_by};
ghost use Rattle.order.specs.Answers.{order_in};
ghost use Rattle.lines.specs.Model.Steps.{Put};
ghost use Rattle.text.specs.Model.Steps.{RowAccepted, Laid};

use lines::{put_counts, put_line, put_order, put_polynomial};
use lists::clear;
use order::questions::{HIGHEST_VERSION, counted_weights, from_to};
use order::record::OrderRecord;
use order::refusal::Refusal;
use row::Row;

// Questions 2, 3, 7 and 10.
fn ask_row(o: OrderRecord, plain: usize, undetected: usize, size: usize) -> Result<(), Refusal>
    ensures { asked result ≡ first_no (row_questions o.version o.n o.d plain undetected size) }
{
    if !from_to(1, HIGHEST_VERSION, o.version) {
        return Err(Refusal::LinkKind);
    }
    if !from_to(2, 4, o.n) {
        return Err(Refusal::GeneratorCount);
    }
    if !from_to(1, 64, o.d) {
        return Err(Refusal::Threshold);
    }
    let entries = counted_weights(o.d) as usize;
    if plain < entries || undetected < entries || size < 4096 {
        return Err(Refusal::Room);
    }
    Ok(())
}

// What the text of a row is made of. The order's numbers and the lengths of the counts are accepted, and not asked again.
#[derive(Clone, Copy)]
pub struct RowText<'a> {
    pub order: OrderRecord,
    pub row: Row,
    pub plain: &'a [u64],
    pub undetected: &'a [u64],
    pub ghost accepted: { RowAccepted order.n order.d (length plain.now) (length undetected.now) },
}

fn put_row(buffer: &mut [u8], text: RowText<'_>) -> usize
    requires { 4096 ≤ length buffer.old }
    ensures { Put 4096 buffer.old 0 (row_text (order_in text.entry.order) text.entry.row text.entry.plain.now text.entry.undetected.now) buffer.new result }
{
    let to_events = put_order(buffer, 0, text.order);
    let to_paths = put_line(buffer, to_events, b"EVENTS", &[text.row.events]);
    let to_counts = put_line(buffer, to_paths, b"PATHS", &[text.row.paths]);
    let entries = counted_weights(text.order.d) as usize;
    let to_polynomial = put_counts(buffer, to_counts, entries, text.plain, text.undetected);
    put_polynomial(buffer, to_polynomial, text.row.polynomial, text.row.shared)
}

fn put_refusal(buffer: &mut [u8], number: u64) -> usize
    requires { 4096 ≤ length buffer.old }
    ensures { Put 4096 buffer.old 0 (refusal_text number) buffer.new result }
{
    put_line(buffer, 0, b"NO", &[number])
}

// A row, and zeros after it: where it ends. Nothing is asked.
pub fn lay_row(text: RowText<'_>, buffer: &mut [u8]) -> usize
    requires { 4096 ≤ length buffer.old }
    ensures { Laid (row_text (order_in text.entry.order) text.entry.row text.entry.plain.now text.entry.undetected.now) buffer.old buffer.new result }
{
    clear(buffer, 0);
    put_row(buffer, text)
}

// A refusal, and zeros after it: where it ends.
pub fn lay_refusal(number: u64, buffer: &mut [u8]) -> usize
    requires { 4096 ≤ length buffer.old }
    ensures { Laid (refusal_text number) buffer.old buffer.new result }
{
    clear(buffer, 0);
    put_refusal(buffer, number)
}

fn write_numbers(
    o: OrderRecord,
    row: Row,
    plain: &[u64],
    undetected: &[u64],
    buffer: &mut [u8],
) -> Result<u64, Refusal>
    ensures { (answered_by (λ n. n) result, buffer.new) ≡ row_call (order_in o) (accepted row) plain.now undetected.now buffer.old }
{
    ask_row(o, plain.len(), undetected.len(), buffer.len())?;
    let text = RowText {
        order: o,
        row,
        plain,
        undetected,
    };
    let end = lay_row(text, buffer);
    Ok(end as u64)
}

// A refusal, and zeros after it: how many bytes the text has.
pub fn write_refusal(number: u64, buffer: &mut [u8]) -> Result<u64, Refusal>
    ensures { (answered_by (λ n. n) result, buffer.new) ≡ refusal_call number buffer.old }
{
    if buffer.len() < 4096 {
        return Err(Refusal::Room);
    }
    let end = lay_refusal(number, buffer);
    Ok(end as u64)
}

// What a call answered for an order, and zeros after it: the row, or the number of the refusal, which a host hands back and may be any number.
pub fn write_row(
    o: OrderRecord,
    a: Result<Row, u64>,
    plain: &[u64],
    undetected: &[u64],
    buffer: &mut [u8],
) -> Result<u64, Refusal>
    ensures { (answered_by (λ n. n) result, buffer.new) ≡ row_call (order_in o) (handed_back a) plain.now undetected.now buffer.old }
{
    match a {
        Ok(row) => write_numbers(o, row, plain, undetected, buffer),
        Err(number) => write_refusal(number, buffer),
    }
}
