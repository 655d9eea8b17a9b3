// The tables of the work area, which `specs/Model/Tables.antt` describes: what a step weighs, and the least weights that cut the walk backwards. The area is
// a slice of numbers, since hosts in C lend it so: what is known of it stands in the contracts.
ghost use Rattle.std.specs.Prelude.{◌≡◌, ◌+◌, ◌-◌, ◌*◌, ◌/◌, ◌%◌, ◌<◌, ◌≤◌, length};
ghost use Rattle.needed.specs.Model.Tables.{step_count, tables_end, need, step_at, through, least_to, packed, row_from, rows_from, weights_from, prepared, turned, Entry, Step, Rows, Unprepared};

use code::encoder::step_weight;

// The places of the work area.
const ROW_WORDS: u64 = 32;

const STEP_COUNT: u64 = 512;

const STEPS_AT: u64 = 4608;

pub const LENGTH_AT: usize = 5120;

pub const THRESHOLD_AT: usize = 5121;

pub const HALF_AT: usize = 5122;

// What is kept for a state that no walk leads to.
const NO_WALK: u64 = 64;

// The least weight of row t and state s.
pub fn need_at(work: &[u64], t: u64, s: u64) -> u64
    requires { Entry work.now t s }
    ensures { result ≡ need work.now t s }
{
    let at = (t * ROW_WORDS + s / 8) as usize;
    (work[at] >> (s % 8 * 8)) % 256
}

// What the step from state p with input b weighs.
pub fn step_at(work: &[u64], p: u64, b: u64) -> u64
    requires { Step work.now p b }
    ensures { result ≡ step_at work.now p b }
{
    let at = (STEPS_AT + 2 * p + b) as usize;
    work[at]
}

// By way of state p and input b.
fn through(work: &[u64], t: u64, p: u64, b: u64) -> u64
    requires { Entry work.now t p × (b < 2) }
    ensures { result ≡ through work.now t p b }
{
    need_at(work, t, p) + step_at(work, p, b)
}

// The least weight from i to s in t steps through states above i, found from the row before.
fn least_to(work: &[u64], i: u64, t: u64, s: u64) -> u64
    requires { Entry work.now t s }
    ensures { result ≡ least_to work.now i t s }
{
    if t == 0 {
        if s == i {
            return 0;
        }
        return NO_WALK;
    }
    if s <= i {
        return NO_WALK;
    }
    let a = through(work, t - 1, s / 2, s % 2);
    let b = through(work, t - 1, s / 2 + work[HALF_AT], s % 2);
    NO_WALK.min(a.min(b))
}

// Eight of them as one number, word q of row t.
fn pack(work: &[u64], i: u64, t: u64, q: u64) -> u64
    requires { Rows work.now (q + 1) (t + 1) }
    ensures { result ≡ packed work.now i t 8 (q * 8) }
{
    let mut word = 0;
    for k in (0..8).rev() {
        word = word * 256 + least_to(work, i, t, q * 8 + k);
    }
    word
}

fn fill_row(work: &mut [u64], i: u64, t: u64, words: u64)
    requires { Rows work.old words (t + 1) }
    ensures { work.new ≡ row_from i t words 0 work.old }
{
    for q in 0..words {
        let word = pack(work, i, t, q);
        let at = (t * ROW_WORDS + q) as usize;
        work[at] = word;
    }
}

fn fill_rows(work: &mut [u64], i: u64, words: u64, rows: u64)
    requires { Rows work.old words rows }
    ensures { work.new ≡ rows_from i words rows 0 work.old }
{
    for t in 0..rows {
        fill_row(work, i, t, words);
    }
}

fn fill_weights(generators: &[u64], work: &mut [u64])
    requires { (length generators.now ≤ 4) × (tables_end ≤ length work.old) }
    ensures { work.new ≡ weights_from generators.now step_count 0 work.old }
{
    for x in 0..STEP_COUNT {
        let at = (STEPS_AT + x) as usize;
        work[at] = step_weight(generators, x);
    }
}

// What all states and lengths share.
pub fn prepare(generators: &[u64], work: &mut [u64], v: u64, d: u64)
    requires { Unprepared generators.now v work.old }
    ensures { work.new ≡ prepared generators.now v d work.old }
{
    work[THRESHOLD_AT] = d;
    work[HALF_AT] = 1 << (v - 1);
    fill_weights(generators, work);
}

// Turn k: the length, and for a new state its least weights.
pub fn turn(work: &mut [u64], words: u64, steps: u64, k: u64)
    requires { Rows work.old words steps × (1 ≤ steps) }
    ensures { work.new ≡ turned words steps k work.old }
{
    let step = k % steps;
    work[LENGTH_AT] = step + 1;
    if step == 0 {
        fill_rows(work, k / steps, words, steps);
    }
}
