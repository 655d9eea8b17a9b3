// A link: an order whose code is accepted. There are two kinds, as specs/Links.antt tells them apart: 1 is tail-biting, 2 terminated.
ghost use Rattle.std.specs.Prelude.{◌≡◌, length};
ghost use Rattle.order.specs.Answers.{order_in};
ghost use Rattle.order.specs.Model.Accepted.{AcceptedCode};
ghost use Rattle.code.specs.Links.{terminated, steps_of, event_states};

use order::record::OrderRecord;
use poly::word::power;

// What is accepted is not asked again. That the array has four places is kept too: behind a reference it is not known.
#[derive(Clone, Copy)]
pub struct Link {
    pub order: OrderRecord,
    pub ghost accepted: { AcceptedCode (order_in order) },
    pub ghost four: { length order.generators ≡ 4 },
}

// Of any order, accepted or not.
pub fn is_terminated(order: OrderRecord) -> bool
    ensures { result ≡ terminated (order_in order) }
{
    order.version == 2
}

impl Link {
    pub fn new(order: OrderRecord) -> Link
        requires { AcceptedCode (order_in order) }
        ensures { result.order ≡ order }
    {
        Link { order }
    }

    // The order's generators: the first n of the struct's four.
    pub fn generators(&self) -> &[u64]
        ensures { result.now ≡ (order_in self.now.order).generators }
    {
        &self.order.generators[..self.order.n as usize]
    }

    pub fn is_terminated(self) -> bool
        ensures { result ≡ terminated (order_in self.order) }
    {
        is_terminated(self.order)
    }

    // How many steps a word takes.
    pub fn steps(self) -> u64
        ensures { result ≡ steps_of (order_in self.order) }
    {
        if self.is_terminated() {
            self.order.bits + self.order.v
        } else {
            self.order.bits
        }
    }

    // How many states begin events.
    pub fn event_states(self) -> u64
        ensures { result ≡ event_states (order_in self.order) }
    {
        if self.is_terminated() {
            1
        } else {
            power(self.order.v)
        }
    }
}
