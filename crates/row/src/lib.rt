#![tactic(auto)]
// What a call over lent tables answers: the numbers of a row.
// The function here is for the crates above; docs/DECISIONS.md lists it as internal.
ghost use Rattle.std.specs.Prelude.{◌≡◌};
ghost use Rattle.row.specs.Answered.{row};

// How many events and paths there are, the check polynomial, and how many share its counts, it among them. 0 for what a call does not tell.
#[repr(C)]
#[derive(Clone, Copy)]
pub struct Row {
    pub events: u64,
    pub paths: u64,
    pub polynomial: u64,
    pub shared: u64,
}

pub fn row_of(events: usize, paths: usize, polynomial: u64, shared: u64) -> Row
    ensures { result ≡ row events paths polynomial shared }
{
    Row {
        events: events as u64,
        paths: paths as u64,
        polynomial,
        shared,
    }
}
