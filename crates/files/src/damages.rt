// What is done to a file before it is looked at.
ghost use Rattle.std.specs.Prelude.{◌≤◌, ◌<◌, length};

// By HOW and N. The places are taken modulo the file's bits or bytes.
#[derive(Clone, Copy)]
pub enum Damage {
    Whole,
    // Bit N becomes the other.
    Flip(u64),
    // The first N bytes stay.
    Cut(u64),
    // N zeros come behind.
    Grow(u64),
    // Byte N / 256 becomes N modulo 256.
    Set(u64),
}

pub const MOST_GROWTH: u64 = 65536;

// A number below `size`.
fn below(size: usize, n: u64) -> usize
    requires { 0 < size }
    ensures { result < size }
{
    n as usize % size
}

fn flip(file: &mut [u8], n: u64)
    requires { 0 < length file.old }
{
    let place = below(file.len(), n / 8);
    file[place] ^= 1 << (n % 8);
}

fn set(file: &mut [u8], n: u64)
    requires { 0 < length file.old }
{
    let place = below(file.len(), n / 256);
    file[place] = (n % 256) as u8;
}

// Does it to the file of `size` bytes, behind which zeros are lent, and says how many bytes the file then has. Zeros that are
// not lent don't come behind it.
pub fn damaged(file: &mut [u8], size: usize, damage: Damage) -> usize
    requires { (0 < size) × (size ≤ length file.old) }
    ensures { result ≤ length file.new }
{
    match damage {
        Damage::Flip(n) => {
            flip(&mut file[..size], n);
            size
        }
        Damage::Set(n) => {
            set(&mut file[..size], n);
            size
        }
        Damage::Cut(n) => below(size + 1, n),
        Damage::Grow(n) => size + (n as usize).min(file.len() - size),
        Damage::Whole => size,
    }
}
