#![tactic(auto)]
// The parity checks of a polynomial. They are made once and then tell of any number of words whether the polynomial divides them, most often by the
// first row or two; a division would take a step for each bit.
ghost use Rattle.std.specs.Prelude.{◌≡◌, ◌+◌, ◌*◌, ◌^◌, ◌<◌, ◌≤◌};
ghost use Rattle.poly.specs.Word.{number};
ghost use Rattle.parity.specs.Model.Parity.{check_row, check_table, oddness, odd_of_four, even_from, all_even, ToCheck, ToCheckRow, ToSetBit};

use poly::register::times_x;
use poly::word::{Word, make};

// The word with bit j set to b above the bits that it has.
fn with_bit(w: Word, j: u64, b: u64) -> Word
    requires { ToSetBit (number w) j b }
    ensures { number result ≡ b * 2 ^ j + number w }
{
    if j < 64 {
        return Word {
            low: w.low + (b << j),
            high: w.high,
        };
    }
    Word {
        low: w.low,
        high: w.high + (b << (j - 64)),
    }
}

// Row i for words of so many bits.
fn check_row(bits: u64, m: u64, p: u64, i: u64) -> Word
    requires { ToCheckRow bits m p i }
    ensures { number result ≡ check_row bits m p i }
{
    let mut row = make(0, 0);
    let mut power = 1;
    for j in 0..bits {
        row = with_bit(row, j, (power >> i) % 2);
        power = times_x(power, m, p);
    }
    row
}

// The parity checks of a polynomial of degree `count`: a row each, low half first, and zeros after them.
#[derive(Clone, Copy)]
pub struct Checks {
    pub rows: [u64; 24],
    pub count: u64,
    pub ghost few: { count ≤ 12 },
}

impl Checks {
    // For words of so many bits.
    pub fn new(bits: u64, m: u64, p: u64) -> Checks
        requires { ToCheck bits m p }
        ensures { (result.rows ≡ check_table bits m p) × (result.count ≡ m) }
    {
        let mut rows = [0; 24];
        for i in 0..m {
            let row = check_row(bits, m, p, i);
            let at = 2 * i as usize;
            rows[at] = row.low;
            rows[at + 1] = row.high;
        }
        Checks { rows, count: m }
    }

    // The ones, modulo 2, that the word has at the places of row i.
    fn oddness_of(&self, i: usize, word: Word) -> u32
        requires { i < 12 }
        ensures { (result ≡ oddness self.now.rows word.low word.high i) × (result < 2) }
    {
        let at = 2 * i;
        let common = (word.low & self.rows[at]) ^ (word.high & self.rows[at + 1]);
        u64::count_ones(common) % 2
    }

    // The rows from row `first` on, one by one.
    fn rest_even(&self, first: usize, word: Word) -> bool
        requires { first ≤ self.now.count }
        ensures { result ≡ even_from self.now.rows self.now.count first word.low word.high }
    {
        (first..self.count as usize).all(|i| self.oddness_of(i, word) == 0)
    }

    // How many of four rows from row i on are odd.
    fn odd_of_four(&self, i: usize, word: Word) -> u32
        requires { i + 4 ≤ 12 }
        ensures { result ≡ odd_of_four self.now.rows word.low word.high i }
    {
        let two = self.oddness_of(i, word) + self.oddness_of(i + 1, word);
        two + self.oddness_of(i + 2, word) + self.oddness_of(i + 3, word)
    }

    // Whether the word has an even number of ones at the places of every row: the polynomial divides it. Four rows are looked at together: at which row
    // a word fails cannot be foretold, that it fails at one of four nearly can.
    pub fn all_even(&self, word: Word) -> bool
        ensures { result ≡ all_even self.now.rows self.now.count word.low word.high }
    {
        let fours = self.count as usize / 4;
        for k in 0..fours {
            if self.odd_of_four(4 * k, word) != 0 {
                return false;
            }
        }
        self.rest_even(4 * fours, word)
    }
}
