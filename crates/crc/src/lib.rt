#![tactic(auto)]
// The check remainder: appended to a message, stripped from a word, tested. Each call asks questions 5 (from 1), 6, 11 and 12 of document 01.
ghost use Rattle.std.specs.Prelude.{◌≡◌};
ghost use Rattle.poly.specs.Word.{number};
ghost use Rattle.order.specs.Questions.{first_no};
ghost use Rattle.order.specs.Refusals.{asked, answered_by};
ghost use Rattle.crc.specs.Check.{polynomial_questions, word_questions, append_call, strip_call, test_call};
ghost use Rattle.crc.specs.Answers.{stripping_as, divisibility};

use order::questions::{LONGEST_WORD, degree_fits, from_to, is_check_polynomial};
use order::refusal::Refusal;
use poly::register::remainder_of;
use poly::word::{Word, is_below, make, shift_down, shift_up, xor};

// What is stripped of a word that came over the link. Damage is no refusal: it is what the check is for.
#[derive(Clone, Copy)]
pub enum Stripping {
    Message(Word),
    Damaged(u64),
}

// Questions 5, 6 and 11.
fn ask_polynomial(bits: u64, m: u64, polynomial: u64) -> Result<(), Refusal>
    ensures { asked result ≡ first_no (polynomial_questions bits m polynomial) }
{
    if !from_to(1, LONGEST_WORD, bits) {
        return Err(Refusal::WordLength);
    }
    if !degree_fits(bits, m) {
        return Err(Refusal::CheckDegree);
    }
    if !is_check_polynomial(m, polynomial) {
        return Err(Refusal::CheckPolynomial);
    }
    Ok(())
}

// Questions 5, 6, 11 and 12, of a word or message of `size` bits.
fn ask_word(bits: u64, m: u64, polynomial: u64, size: u64, word: Word) -> Result<(), Refusal>
    ensures { asked result ≡ first_no (word_questions bits m polynomial size (number word)) }
{
    ask_polynomial(bits, m, polynomial)?;
    if !is_below(word, size) {
        return Err(Refusal::WordTooLong);
    }
    Ok(())
}

// The word of a message of bits - m bits.
pub fn append(bits: u64, m: u64, polynomial: u64, message: Word) -> Result<Word, Refusal>
    ensures { answered_by number result ≡ append_call bits m polynomial (number message) }
{
    ask_word(bits, m, polynomial, bits.saturating_sub(m), message)?;
    let shifted = shift_up(message, m);
    let r = remainder_of(shifted, bits, m, polynomial);
    Ok(xor(shifted, make(r, 0)))
}

// The message of a word of `bits` bits, or its nonzero remainder.
pub fn strip(bits: u64, m: u64, polynomial: u64, word: Word) -> Result<Stripping, Refusal>
    ensures { answered_by stripping_as result ≡ strip_call bits m polynomial (number word) }
{
    ask_word(bits, m, polynomial, bits, word)?;
    let r = remainder_of(word, bits, m, polynomial);
    if r == 0 {
        Ok(Stripping::Message(shift_down(word, m)))
    } else {
        Ok(Stripping::Damaged(r))
    }
}

// Whether the polynomial divides a word of `bits` bits.
pub fn test(bits: u64, m: u64, polynomial: u64, word: Word) -> Result<bool, Refusal>
    ensures { answered_by divisibility result ≡ test_call bits m polynomial (number word) }
{
    ask_word(bits, m, polynomial, bits, word)?;
    Ok(remainder_of(word, bits, m, polynomial) == 0)
}
