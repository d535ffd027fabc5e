// ChaCha after RFC 8439, section 2, with the number of double rounds as a parameter.
ghost use Rattle.std.specs.Prelude.{◌≡◌, slice_index};
ghost use Rattle.random.specs.ChaCha as ChaCha;
ghost use Rattle.random.specs.TurnedRows.{turned_rows};

use super::word::rotate_left;

// The words of a key, and of a state or a block.
pub const KEY_SIZE: usize = 8;

pub const BLOCK_SIZE: usize = 16;

// Four words of the state.
#[derive(Clone, Copy)]
pub struct Quad {
    pub a: u32,
    pub b: u32,
    pub c: u32,
    pub d: u32,
}

// The quarter round on four words.
pub fn quarter_round(q: Quad) -> Quad
    ensures { result ≡ ChaCha.quarter q }
{
    let a1 = q.a.wrapping_add(q.b);
    let d1 = rotate_left(q.d ^ a1, 16);
    let c1 = q.c.wrapping_add(d1);
    let b1 = rotate_left(q.b ^ c1, 12);
    let a2 = a1.wrapping_add(b1);
    let d2 = rotate_left(d1 ^ a2, 8);
    let c2 = c1.wrapping_add(d2);
    let b2 = rotate_left(b1 ^ c2, 7);
    Quad {
        a: a2,
        b: b2,
        c: c2,
        d: d2,
    }
}

// The quarter round on the words at four places of the state.
fn quarter_of(s: [u32; BLOCK_SIZE], x: usize, y: usize, z: usize, w: usize) -> Quad
    requires { ChaCha.Places x y z w }
    ensures { result ≡ ChaCha.quarter (record { a = slice_index s x; b = slice_index s y; c = slice_index s z; d = slice_index s w }) }
{
    quarter_round(Quad {
        a: s[x],
        b: s[y],
        c: s[z],
        d: s[w],
    })
}

// The quarter rounds on the four columns. They touch no word in common, so one instruction can do a
// step of all four.
fn column_round(s: [u32; BLOCK_SIZE]) -> [u32; BLOCK_SIZE]
    ensures { result ≡ ChaCha.column_round s }
{
    let p = quarter_of(s, 0, 4, 8, 12);
    let q = quarter_of(s, 1, 5, 9, 13);
    let r = quarter_of(s, 2, 6, 10, 14);
    let t = quarter_of(s, 3, 7, 11, 15);
    [
        p.a, q.a, r.a, t.a, p.b, q.b, r.b, t.b, p.c, q.c, r.c, t.c, p.d, q.d, r.d, t.d,
    ]
}

// Row r, of four words, turned left by r places: the diagonals stand as columns. Turned four times,
// the state is as it was.
fn turn_rows(s: [u32; BLOCK_SIZE]) -> [u32; BLOCK_SIZE]
    ensures { result ≡ turned_rows s }
{
    [
        s[0], s[1], s[2], s[3], s[5], s[6], s[7], s[4], s[10], s[11], s[8], s[9], s[15], s[12],
        s[13], s[14],
    ]
}

// The quarter rounds on the four diagonals, which are the columns of the turned rows.
fn diagonal_round(s: [u32; BLOCK_SIZE]) -> [u32; BLOCK_SIZE]
    ensures { result ≡ ChaCha.diagonal_round s }
{
    let t = column_round(turn_rows(s));
    turn_rows(turn_rows(turn_rows(t)))
}

// The state after that many double rounds, a column round and a diagonal round each.
fn double_rounds(k: u32, s: [u32; BLOCK_SIZE]) -> [u32; BLOCK_SIZE]
    ensures { result ≡ ChaCha.double_rounds k s }
{
    let mut t = s;
    // So many times: nothing is gone through.
    for i in 0..k {
        t = diagonal_round(column_round(t));
    }
    t
}

// The state that a block starts from: the constants, the key, and the last four words.
fn initial_state(key: [u32; KEY_SIZE], last: [u32; 4]) -> [u32; BLOCK_SIZE]
    ensures { result ≡ ChaCha.initial_state key last }
{
    [
        0x61707865, 0x3320646e, 0x79622d32, 0x6b206574, key[0], key[1], key[2], key[3], key[4],
        key[5], key[6], key[7], last[0], last[1], last[2], last[3],
    ]
}

// The words of a and b added, place by place.
fn sums(a: [u32; BLOCK_SIZE], b: [u32; BLOCK_SIZE]) -> [u32; BLOCK_SIZE]
    ensures { result ≡ ChaCha.sums a b }
{
    let mut t = [0u32; BLOCK_SIZE];
    // By index: `array::from_fn` was tried, and what it ensures did not tell a proof that each call reads this `a` and this `b`.
    for (i, word) in t.iter_mut().enumerate() {
        *word = a[i].wrapping_add(b[i]);
    }
    t
}

// One block of sixteen words, after k double rounds. The last four words of its state are RFC 8439's counter and nonce.
#[tactic(auto, unfolding(crate::specs::ChaCha::block))]
pub fn block(k: u32, key: [u32; KEY_SIZE], last: [u32; 4]) -> [u32; BLOCK_SIZE]
    ensures { result ≡ ChaCha.block k key last }
{
    let s = initial_state(key, last);
    sums(double_rounds(k, s), s)
}
