// The draws of a seed: ChaCha with eight rounds, its blocks counted from 0, and two words a draw.
ghost use Rattle.std.specs.Prelude.{◌≡◌, ℕ, ◌+◌, ◌*◌, ◌^◌, length};
ghost use Rattle.random.specs.ChaCha as ChaCha;
ghost use Rattle.random.specs.Draws.{Keyed, DrawNext, HasBlock, draw};
ghost use Rattle.random.specs.Table.{tabulate};

use super::chacha::{BLOCK_SIZE, KEY_SIZE, block};
use super::seed::key_of;

// Four double rounds are eight rounds.
const DOUBLE_ROUNDS: u32 = 4;

// A draw is two words, so a block has half as many draws.
const BLOCK_DRAWS: u64 = BLOCK_SIZE as u64 / 2;

// The stream of a seed's draws: its key, and the block in hand.
#[derive(Clone, Copy)]
pub struct Stream {
    pub key: [u32; KEY_SIZE],
    pub block: [u32; BLOCK_SIZE],
}

// The stream's block of that number: a 64-bit counter, low word first, and two zero words.
fn stream_block(key: [u32; KEY_SIZE], counter: u64) -> [u32; BLOCK_SIZE]
    ensures { result ≡ ChaCha.stream_block key counter }
{
    let low = (counter % 0x1_0000_0000) as u32;
    let high = (counter / 0x1_0000_0000) as u32;
    block(DOUBLE_ROUNDS, key, [low, high, 0, 0])
}

// Two words as one number, low word first.
fn pair(low: u32, high: u32) -> u64
    ensures { result ≡ low + high * 2 ^ 32 }
{
    u64::from(high) * 0x1_0000_0000 + u64::from(low)
}

// The stream of a seed, with draw 0 next. No block is computed before it is needed.
pub fn begin_draws(seed: u64) -> Stream
    ensures { DrawNext seed 0 result }
{
    Stream {
        key: key_of(seed),
        block: [0; BLOCK_SIZE],
    }
}

impl Stream {
    // The block of that number becomes the block in hand.
    fn fill(&mut self, counter: u64)
        ensures { (seed : ℕ) → Keyed seed self.old
            → Keyed seed self.new × HasBlock seed counter self.new }
    {
        self.block = stream_block(self.key, counter);
    }

    // Draw k, where it is next. A block is computed when the first of its eight draws is taken.
    pub fn next_draw(&mut self, k: u64) -> u64
        ensures { (seed : ℕ) → DrawNext seed k self.old → (result ≡ draw seed k) × DrawNext seed (k + 1) self.new }
    {
        let used = (k % BLOCK_DRAWS) as usize;
        if used == 0 {
            self.fill(k / BLOCK_DRAWS);
        }
        pair(self.block[2 * used], self.block[2 * used + 1])
    }
}

// Fills a slice with the draws of a seed, from draw 0 on.
pub fn draws(seed: u64, out: &mut [u64])
    ensures { out.new ≡ tabulate (length out.old) (draw seed) }
{
    let mut stream = begin_draws(seed);
    for (i, place) in out.iter_mut().enumerate() {
        *place = stream.next_draw(i as u64);
    }
}
