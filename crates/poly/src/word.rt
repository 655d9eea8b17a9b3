// A word of up to 128 bits in two halves, and the operations that the rest needs: each is proved against the number high * 2^64 + low.
ghost use Rattle.std.specs.Prelude.{◌≡◌, ◌+◌, ◌*◌, ◌/◌, ◌^◌, ◌<◌, ltb};
ghost use Rattle.poly.specs.Poly.{bit, ◌⊕◌};
ghost use Rattle.poly.specs.Word.{number};
ghost use Rattle.poly.specs.Model.Asked.{ToShiftUp};

#[repr(C)]
#[derive(Clone, Copy)]
pub struct Word {
    pub low: u64,
    pub high: u64,
}

pub fn make(low: u64, high: u64) -> Word
    ensures { number result ≡ high * 2 ^ 64 + low }
{
    Word { low, high }
}

// Bit i; 0 from bit 128 on.
pub fn bit_at(w: Word, i: u64) -> u64
    ensures { result ≡ bit i (number w) }
{
    if i < 64 {
        return (w.low >> i) % 2;
    }
    if i < 128 {
        return (w.high >> (i - 64)) % 2;
    }
    0
}

pub fn xor(a: Word, b: Word) -> Word
    ensures { number result ≡ number a ⊕ number b }
{
    Word {
        low: a.low ^ b.low,
        high: a.high ^ b.high,
    }
}

// 2^k.
pub fn power(k: u64) -> u64
    requires { k < 64 }
    ensures { result ≡ 2 ^ k }
{
    1 << k
}

// Whether the word is below 2^k.
pub fn is_below(w: Word, k: u64) -> bool
    ensures { result ≡ ltb (number w) (2 ^ k) }
{
    if k < 64 {
        if w.high == 0 {
            return w.low < power(k);
        }
        return false;
    }
    if k < 128 {
        return w.high < power(k - 64);
    }
    true
}

// x^m times the word, where that has no more than 128 bits.
pub fn shift_up(w: Word, m: u64) -> Word
    requires { ToShiftUp (number w) m }
    ensures { number result ≡ number w * 2 ^ m }
{
    Word {
        low: w.low << m,
        high: (w.high << m) + (w.low >> (64 - m)),
    }
}

// The word without its k lowest bits.
pub fn shift_down(w: Word, k: u64) -> Word
    ensures { number result ≡ number w / 2 ^ k }
{
    if k == 0 {
        return w;
    }
    if k < 64 {
        return Word {
            low: (w.low >> k) + (w.high << (64 - k)),
            high: w.high >> k,
        };
    }
    if k < 128 {
        return Word {
            low: w.high >> (k - 64),
            high: 0,
        };
    }
    Word { low: 0, high: 0 }
}
