#![tactic(auto)]
// What hosts are told: each answer of the library as a struct, since an exported function cannot return an enum.
// What is `pub` here is for the crate above; docs/DECISIONS.md lists it as internal.
ghost use Rattle.std.specs.Prelude.{◌≡◌, MatchResult};
ghost use Rattle.order.specs.Refusals.{number_of, asked, answered_by};
ghost use Rattle.poly.specs.Word.{number};
ghost use Rattle.row.specs.Answered.{answered_as};
ghost use Rattle.crc.specs.Answers.{stripping_as, divisibility};
ghost use Rattle.text.specs.Calls.{handed_back};
ghost use Rattle.answers.specs.Answers.{refusal_answer, number_answer, word_answer, stripped_answer, tested_answer, row_answer, answer_in, reading};

use crc::Stripping;
use order::record::OrderRecord;
use order::refusal::Refusal;
use poly::word::Word;
use row::Row;

// What a call answers: the number of the refusal or 0, one number, and one word in two halves. What a call does not use is 0.
#[repr(C)]
#[derive(Clone, Copy)]
pub struct HostAnswer {
    pub refusal: u64,
    pub value: u64,
    pub low: u64,
    pub high: u64,
}

// What a call over lent tables answers: the number of the refusal and zeros, or 0 and the numbers of the row.
#[repr(C)]
#[derive(Clone, Copy)]
pub struct RowAnswer {
    pub refusal: u64,
    pub row: Row,
}

// Where the words of one weight stand in the caller's path table: their first number, and how many numbers; or refusal 10 and zeros.
#[repr(C)]
#[derive(Clone, Copy)]
pub struct PartAnswer {
    pub refusal: u64,
    pub start: u64,
    pub numbers: u64,
}

// What reading a record answers: the number of the refusal, or 0 and the order.
#[repr(C)]
#[derive(Clone, Copy)]
pub struct Reading {
    pub refusal: u64,
    pub order: OrderRecord,
}

const NOTHING: HostAnswer = HostAnswer {
    refusal: 0,
    value: 0,
    low: 0,
    high: 0,
};

// A number alone.
impl From<u64> for HostAnswer {
    ghost from_gives = { λ value answer. answer ≡ number_answer value };

    fn from(value: u64) -> HostAnswer {
        HostAnswer { value, ..NOTHING }
    }
}

// A word in its halves.
impl From<Word> for HostAnswer {
    ghost from_gives = { λ word answer. answer ≡ word_answer (number word) };

    fn from(word: Word) -> HostAnswer {
        HostAnswer {
            low: word.low,
            high: word.high,
            ..NOTHING
        }
    }
}

// The message, or the nonzero remainder as the number.
impl From<Stripping> for HostAnswer {
    ghost from_gives = { λ stripping answer. answer ≡ stripped_answer (stripping_as stripping) };

    fn from(stripping: Stripping) -> HostAnswer {
        match stripping {
            Stripping::Message(message) => HostAnswer::from(message),
            Stripping::Damaged(remainder) => HostAnswer::from(remainder),
        }
    }
}

// Whether the polynomial divides a word: 1, or 0.
impl From<bool> for HostAnswer {
    ghost from_gives = { λ divisible answer. answer ≡ tested_answer (divisibility divisible) };

    fn from(divisible: bool) -> HostAnswer {
        HostAnswer::from(u64::from(divisible))
    }
}

// The number of a refusal.
impl From<Refusal> for HostAnswer {
    ghost from_gives = { λ refusal answer. answer ≡ refusal_answer (number_of refusal) };

    fn from(refusal: Refusal) -> HostAnswer {
        HostAnswer {
            refusal: u64::from(refusal),
            ..NOTHING
        }
    }
}

// The value of what is accepted, or the refusal.
impl<T: Into<HostAnswer>> From<Result<T, Refusal>> for HostAnswer {
    ghost from_gives = { λ answered answer. MatchResult answered (λ value. T.converts value answer) (λ refusal. answer ≡ refusal_answer (number_of refusal)) };

    fn from(answered: Result<T, Refusal>) -> HostAnswer {
        match answered {
            Ok(value) => value.into(),
            Err(refusal) => HostAnswer::from(refusal),
        }
    }
}

// The number of the refusal, or 0.
pub fn refusal_number(answered: Result<(), Refusal>) -> u64
    ensures { result ≡ asked answered }
{
    match answered {
        Ok(()) => 0,
        Err(refusal) => u64::from(refusal),
    }
}

impl From<Result<Row, Refusal>> for RowAnswer {
    ghost from_gives = { λ answered answer. answer ≡ row_answer (answered_as answered) };

    fn from(answered: Result<Row, Refusal>) -> RowAnswer {
        match answered {
            Ok(row) => RowAnswer { refusal: 0, row },
            Err(refusal) => RowAnswer {
                refusal: u64::from(refusal),
                row: Row {
                    events: 0,
                    paths: 0,
                    polynomial: 0,
                    shared: 0,
                },
            },
        }
    }
}

// The answer that a host hands back: its refusal may be any number.
impl From<RowAnswer> for Result<Row, u64> {
    ghost from_gives = { λ answer answered. handed_back answered ≡ answer_in answer };

    fn from(answer: RowAnswer) -> Result<Row, u64> {
        match answer.refusal {
            0 => Ok(answer.row),
            refusal => Err(refusal),
        }
    }
}

impl From<Result<OrderRecord, Refusal>> for Reading {
    ghost from_gives = { λ answered answer. answer ≡ reading (answered_by (λ order. order) answered) };

    fn from(answered: Result<OrderRecord, Refusal>) -> Reading {
        match answered {
            Ok(order) => Reading { refusal: 0, order },
            Err(reason) => Reading {
                refusal: u64::from(reason),
                order: OrderRecord {
                    version: 0,
                    n: 0,
                    v: 0,
                    bits: 0,
                    m: 0,
                    d: 0,
                    generators: [0; 4],
                },
            },
        }
    }
}
