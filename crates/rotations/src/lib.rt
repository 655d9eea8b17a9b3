#![tactic(auto)]
// The rotations of a word, appended to a path table; and the inputs of an event, joined to those before them.
ghost use Rattle.std.specs.Prelude.{◌≡◌, ◌+◌, ◌*◌, ◌^◌, ◌≤◌, length};
ghost use Rattle.poly.specs.Word.{number};
ghost use Rattle.code.specs.Trellis.{rotate};
ghost use Rattle.code.specs.Model.Steps.{ShortWord};
ghost use Rattle.paths.specs.Paths.{path_room};
ghost use Rattle.paths.specs.Model.Joining.{turns};
ghost use Rattle.rotations.specs.Model.Put.{put, puts, ToPushTurns, ToJoinInput};

use poly::word::{Word, is_below};

// The word is stored at place `at` where that is in the table, and counted until the table is known to be too small.
pub fn push(table: &mut [u64], at: usize, w: Word) -> usize
    requires { at ≤ path_room (length table.old) + 1 }
    ensures { (table.new, result) ≡ put (number w) (table.old, at) }
{
    let room = table.len() / 2;
    if at < room {
        let k = 2 * at;
        table[k] = w.low;
        table[k + 1] = w.high;
        return at + 1;
    }
    room + 1
}

// The word begun one step later: its lowest bit becomes the highest of its bits.
pub fn turn_back(w: Word, bits: u64) -> Word
    requires { ShortWord bits (number w) }
    ensures { number result ≡ rotate bits 1 (number w) }
{
    let b = w.low % 2;
    let low = (w.low >> 1) + (w.high << 63);
    let high = w.high >> 1;
    if bits <= 64 {
        return Word {
            low: low + (b << (bits - 1)),
            high,
        };
    }
    Word {
        low,
        high: high + (b << (bits - 65)),
    }
}

// The word begun 0, 1, .., first - 1 steps later, without the zero word (the only one below 2^0), each appended. A word that is emitted once is not
// turned, so it may have more than 128 bits.
pub fn push_turns(table: &mut [u64], at: usize, bits: u64, first: u64, w: Word) -> usize
    requires { ToPushTurns (length table.old) at bits first (number w) }
    ensures { (table.new, result) ≡ puts (turns bits first (number w)) (table.old, at) }
{
    if is_below(w, 0) {
        return at;
    }
    let mut next = at;
    let mut u = w;
    for r in 0..first {
        next = push(table, next, u);
        if r + 1 < first {
            u = turn_back(u, bits);
        }
    }
    next
}

// The input of an event, `place` bits up, joined to the inputs before it. From 128 bits up on the input is 0, however it is shifted.
pub fn join_input(before: Word, input: Word, place: u64) -> Word
    requires { ToJoinInput (number before) (number input) place }
    ensures { number result ≡ number before + number input * 2 ^ place }
{
    if place == 0 {
        return input;
    }
    if place < 64 {
        return Word {
            low: before.low + (input.low << place),
            high: (input.high << place) + (input.low >> (64 - place)),
        };
    }
    Word {
        low: before.low,
        high: before.high + (input.low << (place % 64)),
    }
}
