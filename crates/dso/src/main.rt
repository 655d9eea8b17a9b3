#![tactic(auto)]
// Reads all of standard input as one order record, and prints its row or its refusal.
use print::print;

// Some more is read, into nothing; whether there was something.
fn drop_some() -> bool {
    let mut rest = io::buffer();
    io::read_full(0, &mut rest) > 0
}

// Reads what is left. Nothing says that an input ends, so the turns are counted, from a number that no run uses up.
fn drop_rest() {
    for _ in 0..u64::MAX {
        if !drop_some() {
            break;
        }
    }
}

// The length in a record's first two bytes is at most 65,535. So 65,538 bytes are too many, and so are more: both are refused alike.
fn main() {
    let mut bytes = [0; 65538];
    let n = io::read_full(0, &mut bytes);
    if n == 65538 {
        drop_rest();
    }
    let mut text = [0; 4096];
    let size = print(&bytes[..n], &mut text);
    io::write_all(1, &text[..size]);
}
