// The window that is kept from step to step: the encoder's state, and the bits of the word that are still to come. A step moves one of these in and
// the oldest input out; nothing else of the word is read for it.
ghost use Rattle.std.specs.Prelude.{◌≡◌, ◌+◌, ◌*◌, ◌%◌, ◌≤◌};
ghost use Rattle.poly.specs.Word.{number};
ghost use Rattle.order.specs.Answers.{order_in};
ghost use Rattle.code.specs.Model.Window.{Later, last_state, First};

use super::link::Link;
use poly::word::{Word, power, shift_down};

// `memory` is document 01's v; bit 0 of `rest` is the next input.
#[derive(Clone, Copy)]
pub struct Window {
    pub memory: u64,
    pub state: u8,
    pub rest: Word,
}

impl Window {
    // The inputs that the generators tap: the next and, above it, the state's.
    pub fn inputs(self) -> u64
        ensures { result ≡ 2 * self.state + number self.rest % 2 }
    {
        2 * self.state as u64 + self.rest.low % 2
    }

    // One step later.
    pub fn moved(self) -> Window
        requires { self.memory ≤ 8 }
        ensures { Later self 1 result }
    {
        let inputs = self.inputs();
        Window {
            memory: self.memory,
            state: (inputs % power(self.memory)) as u8,
            rest: shift_down(self.rest, 1),
        }
    }
}

// The state that a word's last v bits leave, moved in from state 0: what was in the window before them would be out again.
fn last_state(link: Link, word: Word) -> u8
    ensures { result ≡ last_state link.order.v link.order.bits (number word) }
{
    let order = link.order;
    let mut window = Window {
        memory: order.v,
        state: 0,
        rest: shift_down(word, order.bits - order.v),
    };
    for _ in 0..order.v {
        window = window.moved();
    }
    window.state
}

// The window before the first step.
pub fn first_window(link: Link, word: Word) -> Window
    ensures { First (order_in link.order) (number word) result }
{
    let state = if link.is_terminated() {
        0
    } else {
        last_state(link, word)
    };
    Window {
        memory: link.order.v,
        state,
        rest: word,
    }
}
