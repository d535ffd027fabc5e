// The mark that places of a buffer hold beforehand.

pub const MARK: u8 = 77;

// How many places of a buffer hold the mark. `replay` has its own, of its mark: programs share the libraries alone.
pub fn kept<T: Copy + PartialEq + From<u8>>(s: &[T]) -> usize {
    let mark = T::from(MARK);
    s.iter().filter(|&&x| x == mark).count()
}
