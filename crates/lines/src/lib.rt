#![tactic(auto)]
// The lines of a text, as bytes in a lent buffer.
// What is `pub` here is for the crate above; docs/DECISIONS.md lists it as internal.
ghost use mathlib.Core.List.{map, flat_map};
ghost use Rattle.std.specs.Prelude.{◌+◌, ◌*◌, ◌≤◌, length};
ghost use Rattle.lists.specs.Lists.{up_from};
ghost use Rattle.lines.specs.Lines.{decimal, line, order_line, count_line, polynomial_line};
ghost use Rattle.order.specs.Answers.{order_in};
ghost use Rattle.lines.specs.Model.Steps.{Put, ToPutCounts};

use numbers::{put_digits, put_numbers};
use order::record::{OrderRecord, generators_of};

mod numbers;

fn put_bytes(buffer: &mut [u8], at: usize, bytes: &[u8]) -> usize
    requires { at + length bytes.now ≤ length buffer.old }
    ensures { Put (length bytes.now) buffer.old at bytes.now buffer.new result }
{
    let end = at + bytes.len();
    buffer[at..end].copy_from_slice(bytes);
    end
}

// A word and decimal numbers.
pub fn put_line(buffer: &mut [u8], at: usize, first: &[u8], numbers: &[u64]) -> usize
    requires { at + (length first.now + 23 * length numbers.now + 1) ≤ length buffer.old }
    ensures { Put (length first.now + 23 * length numbers.now + 1) buffer.old at (line first.now (map decimal numbers.now)) buffer.new result }
{
    let after_first = put_bytes(buffer, at, first);
    let after_numbers = put_numbers(buffer, after_first, 10, numbers);
    buffer[after_numbers] = b'\n';
    after_numbers + 1
}

// The generators are octal, the other numbers decimal.
pub fn put_order(buffer: &mut [u8], at: usize, o: OrderRecord) -> usize
    requires { (o.n ≤ 4) × (at + 213 ≤ length buffer.old) }
    ensures { Put 213 buffer.old at (order_line (order_in o)) buffer.new result }
{
    let numbers = [o.n, o.v, o.bits, o.m, o.d];
    let generators = generators_of(o);
    let n = o.n as usize;
    let after_first = put_bytes(buffer, at, b"ORDER");
    let after_numbers = put_numbers(buffer, after_first, 10, &numbers);
    let after_generators = put_numbers(buffer, after_numbers, 8, &generators[..n]);
    buffer[after_generators] = b'\n';
    after_generators + 1
}

// The counts of entry k, of weight k + 1.
fn put_count(buffer: &mut [u8], at: usize, k: usize, plain: &[u64], undetected: &[u64]) -> usize
    requires { ToPutCounts (k + 1) (length plain.now) (length undetected.now) at 71 (length buffer.old) }
    ensures { Put 51 buffer.old at (count_line plain.now undetected.now (k + 1)) buffer.new result }
{
    let w = k as u64 + 1;
    put_line(buffer, at, b"A", &[w, plain[k], undetected[k]])
}

// The counts of all weights, from 1 on.
pub fn put_counts(
    buffer: &mut [u8],
    at: usize,
    entries: usize,
    plain: &[u64],
    undetected: &[u64],
) -> usize
    requires { ToPutCounts entries (length plain.now) (length undetected.now) at (51 * entries + 20) (length buffer.old) }
    ensures { Put (51 * entries) buffer.old at (flat_map (count_line plain.now undetected.now) (up_from 1 entries)) buffer.new result }
{
    let mut end = at;
    for k in 0..entries {
        end = put_count(buffer, end, k, plain, undetected);
    }
    end
}

// The polynomial is hexadecimal, the number of those that share its counts decimal.
pub fn put_polynomial(buffer: &mut [u8], at: usize, polynomial: u64, shared: u64) -> usize
    requires { at + 52 ≤ length buffer.old }
    ensures { Put 52 buffer.old at (polynomial_line polynomial shared) buffer.new result }
{
    let after_first = put_bytes(buffer, at, b"CRC 0x");
    let after_digits = put_digits(buffer, after_first, 16, polynomial);
    let after_shared = put_numbers(buffer, after_digits, 10, &[shared]);
    buffer[after_shared] = b'\n';
    after_shared + 1
}
