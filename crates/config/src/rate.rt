// Loss rates by their bits.
ghost use Rattle.std.specs.Prelude.{◌≡◌};
ghost use Rattle.std.specs.Float.Ieee.{of_bits};
ghost use Rattle.std.specs.Float.{binary64};

// The sign's bit, and the bits of infinity: patterns above it are NaNs.
const SIGN: u64 = 0x8000_0000_0000_0000;

const INFINITY: u64 = 0x7ff0_0000_0000_0000;

// The f64 with these bits. A NaN's bits are not kept: all patterns above infinity give the one NaN.
#[tactic(auto, using(crate::proofs::Rates::no_nan, crate::proofs::Rates::some_nan))]
pub fn rate_of(bits: u64) -> f64
    ensures { result ≡ of_bits binary64 bits }
{
    if INFINITY < bits % SIGN {
        0.0 / 0.0
    } else {
        f64::from_bits(bits)
    }
}
