// The order record, read from any bytes.
ghost use Rattle.std.specs.Prelude.{◌≡◌, ◌<◌, ◌≤◌, length, get_or, take};
ghost use Rattle.order.specs.Questions.{first_no, generator_questions};
ghost use Rattle.order.specs.Order.{with_length, be16, length_right, version_right, count_right, if_taken, read, record_questions, number_questions, order_questions};
ghost use Rattle.order.specs.Refusals.{number_of, asked, answered_by};
ghost use Rattle.order.specs.Answers.{order_in, recorded};
ghost use Rattle.order.specs.Model.Fields.{fields_of};

use super::questions::{
    EVERYTHING, HIGHEST_VERSION, Takes, ask_generators, ask_shape, degree_fits, from_to,
};
use super::refusal::Refusal;

// An order as a record gives it: the kind of link (1 tail-biting, 2 terminated: a number, as hosts in C hand it over); n generators, the first first, the
// others 0.
#[repr(C)]
#[derive(Clone, Copy)]
pub struct OrderRecord {
    pub version: u64,
    pub n: u64,
    pub v: u64,
    pub bits: u64,
    pub m: u64,
    pub d: u64,
    pub generators: [u64; 4],
}

// The same order for words of `bits` bits.
pub fn with_length(bits: u64, order: OrderRecord) -> OrderRecord
    ensures { order_in result ≡ with_length bits (order_in order) }
{
    OrderRecord { bits, ..order }
}

// All four generators of the struct, of which the first n are the order's.
pub fn generators_of(order: OrderRecord) -> [u64; 4]
    ensures { (result ≡ order.generators) × (length result ≡ 4) }
{
    order.generators
}

// The byte at i; 0 past the end.
fn byte_at(bytes: &[u8], i: usize) -> u64
    ensures { (result ≡ get_or bytes.now i 0) × (result < 256) }
{
    if i < bytes.len() {
        u64::from(bytes[i])
    } else {
        0
    }
}

// The number in two bytes at i, the higher first.
fn two_at(bytes: &[u8], i: usize) -> u64
    requires { i < 256 }
    ensures { result ≡ be16 bytes.now i }
{
    byte_at(bytes, i) * 256 + byte_at(bytes, i + 1)
}

// Question 1: are there 2 bytes, and do they say how many follow?
fn length_right(bytes: &[u8]) -> bool
    ensures { result ≡ length_right bytes.now }
{
    2 <= bytes.len() && two_at(bytes, 0) == bytes.len() as u64 - 2
}

// Question 2: is there a version byte, and is it a version that is known?
fn version_right(bytes: &[u8]) -> bool
    ensures { result ≡ version_right bytes.now }
{
    3 <= bytes.len() && from_to(1, HIGHEST_VERSION, byte_at(bytes, 2))
}

// Question 3, of the record: is n there, and is the length 6 + 2n?
fn count_right(bytes: &[u8]) -> bool
    ensures { result ≡ count_right bytes.now }
{
    4 <= bytes.len() && two_at(bytes, 0) == 6 + 2 * byte_at(bytes, 3)
}

// Questions 1, 2 and 3 of a record.
fn ask_record(bytes: &[u8]) -> Result<(), Refusal>
    ensures { asked result ≡ first_no (record_questions bytes.now) }
{
    if !length_right(bytes) {
        return Err(Refusal::RecordLength);
    }
    if !version_right(bytes) {
        return Err(Refusal::LinkKind);
    }
    if !count_right(bytes) {
        return Err(Refusal::GeneratorCount);
    }
    Ok(())
}

fn fields(bytes: &[u8]) -> OrderRecord
    ensures { result ≡ fields_of bytes.now }
{
    OrderRecord {
        version: byte_at(bytes, 2),
        n: byte_at(bytes, 3),
        v: byte_at(bytes, 4),
        bits: byte_at(bytes, 5),
        m: byte_at(bytes, 6),
        d: byte_at(bytes, 7),
        generators: [
            two_at(bytes, 8),
            two_at(bytes, 10),
            two_at(bytes, 12),
            two_at(bytes, 14),
        ],
    }
}

// One question, where it is asked.
fn ask_if(taken: bool, refusal: Refusal, yes: bool) -> Result<(), Refusal>
    ensures { asked result ≡ first_no (if_taken taken (number_of refusal, yes)) }
{
    if taken && !yes {
        return Err(refusal);
    }
    Ok(())
}

// Questions 6 and 7, as far as the call takes them.
fn ask_numbers(takes: Takes, o: OrderRecord) -> Result<(), Refusal>
    ensures { asked result ≡ first_no (number_questions takes (order_in o)) }
{
    ask_if(takes.degree, Refusal::CheckDegree, degree_fits(o.bits, o.m))?;
    ask_if(takes.threshold, Refusal::Threshold, from_to(1, 64, o.d))
}

// Questions 8, 9 and 16 of the first n of four generators. That there are four is told too, since a caller does not know it of a field.
fn ask_four(v: u64, n: usize, generators: [u64; 4]) -> Result<(), Refusal>
    requires { (v < 63) × (n ≤ 4) }
    ensures { (asked result ≡ first_no (generator_questions v (take n generators))) × (length generators ≡ 4) }
{
    ask_generators(v, &generators[..n])
}

// Questions 2 to 9, then 16, as far as the call takes them.
pub fn ask_order(takes: Takes, o: OrderRecord) -> Result<(), Refusal>
    ensures { asked result ≡ first_no (order_questions takes (order_in o)) }
{
    ask_shape(takes.versions, takes.longest, o.version, o.n, o.v, o.bits)?;
    ask_numbers(takes, o)?;
    let generators = o.generators;
    ask_four(o.v, o.n as usize, generators)
}

// The order that the bytes give, or the refusal of the first question that says no.
pub fn read_order(bytes: &[u8]) -> Result<OrderRecord, Refusal>
    ensures { answered_by (λ o. o) result ≡ recorded (read bytes.now) }
{
    ask_record(bytes)?;
    let order = fields(bytes);
    ask_order(EVERYTHING, order)?;
    Ok(order)
}
