// The seed's expansion to the eight key words of ChaCha.
ghost use Rattle.std.specs.Prelude.{◌≡◌};
ghost use Rattle.random.specs.Seed.{next_state, key_word, key_of};

use super::chacha::KEY_SIZE;
use super::word::rotate_right;

// The state after s.
fn next_state(s: u64) -> u64
    ensures { result ≡ next_state s }
{
    s.wrapping_mul(6364136223846793005)
        .wrapping_add(11634580027462260723)
}

// The key word that the state s gives.
#[tactic(auto, unfolding(crate::specs::Seed::key_word))]
fn key_word(s: u64) -> u32
    ensures { result ≡ key_word s }
{
    let low = ((((s >> 18) ^ s) >> 27) % 0x1_0000_0000) as u32;
    rotate_right(low, (s >> 59) as u32)
}

// The eight key words of a seed.
pub fn key_of(seed: u64) -> [u32; KEY_SIZE]
    ensures { result ≡ key_of seed }
{
    let mut key = [0u32; KEY_SIZE];
    let mut s = seed;
    for word in &mut key {
        s = next_state(s);
        *word = key_word(s);
    }
    key
}
