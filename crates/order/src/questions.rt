// Each question as a test, equal to the definition's; and questions that are asked together, with the refusal of the first that says no.
ghost use Rattle.std.specs.Prelude.{◌≡◌, ◌&&◌, ◌+◌, ◌-◌, ◌/◌, ◌^◌, ◌<◌, ltb, eqb};
ghost use Rattle.lists.specs.Lists.{all, any};
ghost use Rattle.poly.specs.Poly.{bit};
ghost use Rattle.order.specs.Questions.{first_no, from_to, in_range, has_bit, shape_questions, generator_questions};
ghost use Rattle.order.specs.Refusals.{asked};

use super::refusal::Refusal;
use gcd::share_factor;

// The numbers that a work area has at least.
pub const WORK_SIZE: usize = 8192;

// The highest version of an order: 1 is a tail-biting link, 2 a terminated one.
pub const HIGHEST_VERSION: u64 = 2;

// The bits of the longest word.
pub const LONGEST_WORD: u64 = 128;

// What a call takes of an order, and so asks about: versions and lengths up to these, and whether the degree and the threshold.
#[derive(Clone, Copy)]
pub struct Takes {
    pub versions: u64,
    pub longest: u64,
    pub degree: bool,
    pub threshold: bool,
}

// The code alone.
pub const CODE: Takes = Takes {
    versions: HIGHEST_VERSION,
    longest: LONGEST_WORD,
    degree: false,
    threshold: false,
};

// The code and the threshold.
pub const THRESHOLD: Takes = Takes {
    versions: HIGHEST_VERSION,
    longest: LONGEST_WORD,
    degree: false,
    threshold: true,
};

pub const EVERYTHING: Takes = Takes {
    versions: HIGHEST_VERSION,
    longest: LONGEST_WORD,
    degree: true,
    threshold: true,
};

pub fn from_to(low: u64, high: u64, x: u64) -> bool
    ensures { result ≡ from_to low high x }
{
    low <= x && x <= high
}

// How many weights have counts, below threshold d: those from 1 on.
pub fn counted_weights(d: u64) -> u64
    ensures { result ≡ d - 1 }
{
    d.saturating_sub(1)
}

// Question 6: is the degree from 1 to 12 and below N?
pub fn degree_fits(bits: u64, m: u64) -> bool
    ensures { result ≡ (from_to 1 12 m && ltb m bits) }
{
    from_to(1, 12, m) && m < bits
}

// Bit j of a number; 0 from bit 64 on.
pub fn bit_of(a: u64, j: u64) -> u64
    ensures { result ≡ bit j a }
{
    if j < 64 { (a >> j) % 2 } else { 0 }
}

// Question 11: has p degree m and constant term 1?
pub fn is_check_polynomial(m: u64, p: u64) -> bool
    ensures { result ≡ (eqb (p / 2 ^ m) 1 && eqb (bit 0 p) 1) }
{
    m < 64 && p >> m == 1 && bit_of(p, 0) == 1
}

// Question 8: is every generator nonzero and below 2^(v + 1)?
pub fn all_in_range(v: u64, generators: &[u64]) -> bool
    requires { v < 63 }
    ensures { result ≡ all (in_range v) generators.now }
{
    let limit = 1 << (v + 1);
    generators.iter().all(|&g| 0 < g && g < limit)
}

// Question 9, half of it: has some generator bit j?
pub fn some_has_bit(j: u64, generators: &[u64]) -> bool
    ensures { result ≡ any (has_bit j) generators.now }
{
    generators.iter().any(|&g| bit_of(g, j) == 1)
}

// Questions 2, 3, 4 and 5.
pub fn ask_shape(
    versions: u64,
    longest: u64,
    version: u64,
    n: u64,
    v: u64,
    bits: u64,
) -> Result<(), Refusal>
    ensures { asked result ≡ first_no (shape_questions versions longest version n v bits) }
{
    if !from_to(1, versions, version) {
        return Err(Refusal::LinkKind);
    }
    if !from_to(2, 4, n) {
        return Err(Refusal::GeneratorCount);
    }
    if !from_to(1, 8, v) {
        return Err(Refusal::Memory);
    }
    if !from_to(v, longest, bits) {
        return Err(Refusal::WordLength);
    }
    Ok(())
}

// Has some generator bit v, and some generator bit 0?
pub fn ends_reached(v: u64, generators: &[u64]) -> bool
    ensures { result ≡ (any (has_bit v) generators.now && any (has_bit 0) generators.now) }
{
    some_has_bit(v, generators) && some_has_bit(0, generators)
}

// Questions 8, 9 and 16.
pub fn ask_generators(v: u64, generators: &[u64]) -> Result<(), Refusal>
    requires { v < 63 }
    ensures { asked result ≡ first_no (generator_questions v generators.now) }
{
    if !all_in_range(v, generators) {
        return Err(Refusal::GeneratorRange);
    }
    if !ends_reached(v, generators) {
        return Err(Refusal::GeneratorEnds);
    }
    if share_factor(generators) {
        return Err(Refusal::SharedFactor);
    }
    Ok(())
}
