// A draw's fraction, and whether a reception succeeds.
ghost use Rattle.std.specs.Prelude.{◌≡◌};
ghost use Rattle.random.specs.Reception.{fraction as fractionOf, Receives};

use super::draws::Stream;

// 2^-53.
const FRACTION_STEP: f64 = 1.1102230246251565e-16;

// m / 2^53, with m the draw's top 53 bits.
pub fn fraction(draw: u64) -> f64
    ensures { result ≡ fractionOf draw }
{
    ((draw >> 11) as f64) * FRACTION_STEP
}

// One attempt, of number k, at a loss rate. Where the rate is 0, nothing is lost and no draw is taken.
pub fn receive(rate: f64, stream: &mut Stream, k: u64) -> bool
    ensures { Receives rate k stream.old result stream.new }
{
    if rate == 0.0 {
        return true;
    }
    fraction(stream.next_draw(k)) >= rate
}
