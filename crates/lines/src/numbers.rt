// Numbers as digits. A function that puts something into the buffer takes the place of its first byte and answers the place after its last.
ghost use Rattle.std.specs.Prelude.{◌≡◌, ◌*◌, ◌<◌, length};
ghost use Rattle.lines.specs.Lines.{digit, numeral};
ghost use Rattle.lines.specs.Model.Steps.{Put, ToPut, spaced};

// 0 to 9, then A to F.
fn digit_of(x: u64) -> u8
    requires { x < 16 }
    ensures { result ≡ digit x }
{
    if x < 10 {
        return (48 + x) as u8;
    }
    (55 + x) as u8
}

// The digits before the last, then the last.
pub fn put_digits(buffer: &mut [u8], at: usize, base: u64, x: u64) -> usize
    requires { ToPut 2 base at (length (numeral base x)) (length buffer.old) }
    ensures { Put (length (numeral base x)) buffer.old at (numeral base x) buffer.new result }
{
    if x < base {
        buffer[at] = digit_of(x);
        return at + 1;
    }
    let last = put_digits(buffer, at, base, x / base);
    buffer[last] = digit_of(x % base);
    last + 1
}

// A space before each number. In base 8 or above a number of 64 bits has 22 digits at most.
pub fn put_numbers(buffer: &mut [u8], at: usize, base: u64, numbers: &[u64]) -> usize
    requires { ToPut 8 base at (23 * length numbers.now) (length buffer.old) }
    ensures { Put (23 * length numbers.now) buffer.old at (spaced base numbers.now) buffer.new result }
{
    let mut end = at;
    for number in numbers {
        buffer[end] = b' ';
        end = put_digits(buffer, end + 1, base, *number);
    }
    end
}
