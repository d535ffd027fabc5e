// Numbers as text: reading digits of base 10 and 16.
ghost use Rattle.std.specs.Prelude.{◌≡◌, ◌≤◌, ◌<◌};
ghost use Rattle.text.specs.Numeral as Numeral;

// The most digits of a decimal, and the digits of a loss rate's bits.
pub(crate) const MAX_DIGITS: usize = 20;

const RATE_DIGITS: usize = 16;

// The digit that a byte stands for: `0` to `9`, then `a` to `f`.
#[tactic(auto, unfolding(crate::specs::Numeral::digit, crate::specs::Numeral::some_digit))]
pub fn digit(byte: u8) -> Option<u64>
    ensures { result ≡ Numeral.some_digit byte }
{
    match byte {
        b'0'..=b'9' => Some((byte - b'0') as u64),
        b'a'..=b'f' => Some((byte - b'a') as u64 + 10),
        _ => None,
    }
}

// The number that a text of digits stands for, if it is below 2^64. std's `from_str_radix` would also take a `+` and capital
// letters.
#[tactic(auto, using(crate::proofs::Numerals::numeral_steps))]
pub fn numeral(base: u64, text: &[u8]) -> Option<u64>
    requires { (1 ≤ base) × (base ≤ 16) }
    ensures { result ≡ Numeral.numeral base text.now }
{
    let mut n = 0u64;
    for &byte in text {
        let d = digit(byte)?;
        if base <= d {
            return None;
        }
        n = n.checked_mul(base)?.checked_add(d)?;
    }
    Some(n)
}

// A decimal: 1 to 20 digits, below 2^64.
#[tactic(auto, unfolding(crate::specs::Numeral::decimal))]
pub fn decimal(text: &[u8]) -> Option<u64>
    ensures { result ≡ Numeral.decimal text.now }
{
    if text.is_empty() {
        return None;
    }
    if MAX_DIGITS < text.len() {
        return None;
    }
    numeral(10, text)
}

// Exactly 16 hexadecimal digits, lower case.
#[tactic(auto, unfolding(crate::specs::Numeral::hexadecimal))]
pub fn hexadecimal(text: &[u8]) -> Option<u64>
    ensures { result ≡ Numeral.hexadecimal text.now }
{
    if text.len() != RATE_DIGITS {
        return None;
    }
    numeral(16, text)
}
