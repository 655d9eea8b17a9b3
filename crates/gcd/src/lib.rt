#![tactic(auto)]
// Do polynomials share a factor? Their greatest common divisor tells, by Euclid's scheme on numbers.
// What is `pub` here is for the crates above; docs/DECISIONS.md lists it as internal.
ghost use Rattle.std.specs.Prelude.{◌≡◌, ◌<◌};
ghost use Rattle.poly.specs.Poly.{remainder};
ghost use Rattle.gcd.specs.SharedFactor.{share_factor};
ghost use Rattle.gcd.specs.Model.Gcd.{degree, gcd, gcd_all};

// The remainder of a divided by b: b, moved up to the degree of a, is taken off a, until a has a lower degree than b.
fn remainder_by(a: u64, b: u64) -> u64
    requires { 0 < b }
    ensures { result ≡ remainder (degree b) b a }
{
    let zeros = b.leading_zeros();
    let mut r = a;
    while r.leading_zeros() <= zeros {
        r ^= b << (zeros - r.leading_zeros());
    }
    r
}

fn gcd(a: u64, b: u64) -> u64
    ensures { result ≡ gcd a b }
{
    let mut dividend = a;
    let mut divisor = b;
    while divisor != 0 {
        let r = remainder_by(dividend, divisor);
        dividend = divisor;
        divisor = r;
    }
    dividend
}

// 0 where there is none.
fn gcd_of_all(polynomials: &[u64]) -> u64
    ensures { result ≡ gcd_all polynomials.now }
{
    let mut d = 0;
    for g in polynomials {
        d = gcd(d, *g);
    }
    d
}

// Does a polynomial other than 1 divide every one of them?
pub fn share_factor(polynomials: &[u64]) -> bool
    ensures { result ≡ share_factor polynomials.now }
{
    gcd_of_all(polynomials) != 1
}
