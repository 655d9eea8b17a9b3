// The encoder, a step at a time: the window takes one bit of the word in, and each generator sends the parity of the inputs that it taps.
ghost use Rattle.std.specs.Prelude.{◌<◌, ◌^◌, ◌≡◌, map, ◌+◌, ◌/◌, ◌%◌, ◌≤◌, length};
ghost use Rattle.std.proofs.lemmas.List.Edits.{sets};
ghost use Rattle.poly.specs.Word.{number};
ghost use Rattle.lists.specs.Lists.{padded};
ghost use Rattle.order.specs.Answers.{order_in};
ghost use Rattle.code.specs.Weight.{weight, codeword};
ghost use Rattle.code.specs.Trellis.{tapped, step_weight};
ghost use Rattle.code.specs.Model.Steps.{ToEncode};

use super::link::Link;
use super::window::first_window;
use lists::clear;
use poly::word::Word;

// The parity of the inputs that generator g taps.
pub fn parity(g: u64, inputs: u64) -> u8
    ensures { result ≡ tapped inputs g }
{
    (u64::count_ones(g & inputs) % 2) as u8
}

// The bits of one step, from index `at` on.
fn put_step(output: &mut [u8], at: usize, generators: &[u64], inputs: u64)
    requires { at + length generators.now ≤ length output.old }
    ensures { output.new ≡ sets output.old at (map (tapped inputs) generators.now) }
{
    for (i, &g) in generators.iter().enumerate() {
        output[at + i] = parity(g, inputs);
    }
}

// All steps: the codeword, and zeros after it.
pub fn encode_steps(output: &mut [u8], link: Link, word: Word)
    requires { ToEncode (order_in link.order) (number word) (length output.old) }
    ensures { output.new ≡ padded (length output.old) 0 (codeword (order_in link.order) (number word)) }
{
    clear(output, 0);
    let generators = link.generators();
    let mut window = first_window(link, word);
    for t in 0..link.steps() {
        let next = window.moved();
        let at = t as usize * generators.len();
        put_step(output, at, generators, window.inputs());
        window = next;
    }
}

// The ones that all generators send in a step whose inputs are x, the next and, above it, the state.
pub fn step_weight(generators: &[u64], x: u64) -> u64
    requires { length generators.now ≤ 4 }
    ensures { result ≡ step_weight generators.now (x / 2) (x % 2) }
{
    let mut sum = 0;
    for &g in generators {
        sum += u64::from(parity(g, x));
    }
    sum
}

// The ones that all steps send.
pub fn weigh_steps(link: Link, word: Word) -> u64
    requires { number word < 2 ^ link.order.bits }
    ensures { result ≡ weight (order_in link.order) (number word) }
{
    // Named here and not at the loop, whose code else lies so that a step takes 1.4 times as long (docs/DESIGN-PASS.md, Speed).
    let steps = link.steps();
    let generators = link.generators();
    let mut window = first_window(link, word);
    let mut total = 0;
    for _ in 0..steps {
        let next = window.moved();
        total += step_weight(generators, window.inputs());
        window = next;
    }
    total
}
