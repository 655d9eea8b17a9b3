// The remainder register, and the remainder of a word.
ghost use Rattle.std.specs.Prelude.{◌≡◌};
ghost use Rattle.poly.specs.Poly.{register, remainder};
ghost use Rattle.poly.specs.Word.{number};
ghost use Rattle.poly.specs.Model.Asked.{ToDivide, ToMultiply, ToTake};

use super::word::{Word, bit_at};

// Division by a polynomial of degree at most 12: the polynomial, and the remainder so far.
#[derive(Clone, Copy)]
struct Register {
    degree: u64,
    polynomial: u64,
    value: u64,
}

impl Register {
    // One bit more, the highest first. The value is a remainder, so `top` is 0 or 1; a test of it could not be foretold by the processor.
    fn take(self, b: u64) -> Register
        requires { ToTake self.degree self.polynomial self.value b }
        ensures { (result.degree ≡ self.degree) × (result.polynomial ≡ self.polynomial) × (result.value ≡ register self.degree self.polynomial self.value b) }
    {
        let s = 2 * self.value + b;
        let top = s >> self.degree;
        Register {
            value: s ^ (top * self.polynomial),
            ..self
        }
    }
}

// The remainder of a word of so many bits divided by a polynomial of degree m.
pub fn remainder_of(w: Word, bits: u64, m: u64, polynomial: u64) -> u64
    requires { ToDivide (number w) bits m polynomial }
    ensures { result ≡ remainder m polynomial (number w) }
{
    let mut r = Register {
        degree: m,
        polynomial,
        value: 0,
    };
    for i in (0..bits).rev() {
        r = r.take(bit_at(w, i));
    }
    r.value
}

// x times a remainder of division by a polynomial of degree m, divided again.
pub fn times_x(r: u64, m: u64, polynomial: u64) -> u64
    requires { ToMultiply r m polynomial }
    ensures { result ≡ register m polynomial r 0 }
{
    let register = Register {
        degree: m,
        polynomial,
        value: r,
    };
    register.take(0).value
}
