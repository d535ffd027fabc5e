// Numbers as bytes, the lowest first.
ghost use Rattle.std.specs.Prelude.{◌≡◌, ◌+◌, ◌*◌, ◌≤◌, length};
ghost use Rattle.std.proofs.lemmas.List.Edits.{sets};
ghost use Rattle.archive.specs.Bytes.{number_size, bytes_of, number_of, numbers_bytes, number_in, same_bytes};

// How many bytes a number of 64 bits has.
pub const NUMBER_SIZE: usize = 8;

// How many values a byte has.
const BYTE_VALUES: u64 = 256;

// The number that bytes stand for. Of up to 8 bytes, here and in `put_bytes`, as the directory's numbers have 4:
// `from_le_bytes` and `to_le_bytes` are of one size.
pub fn number_of(bytes: &[u8]) -> u64
    requires { length bytes.now ≤ number_size }
    ensures { result ≡ number_of bytes.now }
{
    let mut number = 0u64;
    for &byte in bytes.iter().rev() {
        number = u64::from(byte) + BYTE_VALUES * number;
    }
    number
}

// Number i of bytes that are numbers, one behind the other.
pub fn nth_number(bytes: &[u8], i: usize) -> u64
    requires { number_size * i + number_size ≤ length bytes.now }
    ensures { result ≡ number_in number_size (number_size * i) bytes.now }
{
    let at = NUMBER_SIZE * i;
    number_of(&bytes[at..at + NUMBER_SIZE])
}

// Writes a number into so many bytes from the place `at` on. By buffer and place, here and in `put_numbers`: from a slice's
// promise each caller would have to put together that of the whole file.
pub fn put_bytes(number: u64, size: usize, out: &mut [u8], at: usize)
    requires { at + size ≤ length out.old }
    ensures { out.new ≡ sets out.old at (bytes_of size number) }
{
    let mut rest = number;
    for place in &mut out[at..at + size] {
        *place = (rest % BYTE_VALUES) as u8;
        rest /= BYTE_VALUES;
    }
}

// Writes numbers from the place `at` on.
pub fn put_numbers(numbers: &[u64], out: &mut [u8], at: usize)
    requires { at + number_size * length numbers.now ≤ length out.old }
    ensures { out.new ≡ sets out.old at (numbers_bytes numbers.now) }
{
    for (i, &number) in numbers.iter().enumerate() {
        put_bytes(number, NUMBER_SIZE, out, at + NUMBER_SIZE * i);
    }
}

// Whether the bytes are those of the numbers. No equality of one type: a number is not its bytes.
pub fn are_numbers(bytes: &[u8], numbers: &[u64]) -> bool
    ensures { result ≡ same_bytes bytes.now (numbers_bytes numbers.now) }
{
    if bytes.len() != NUMBER_SIZE * numbers.len() {
        return false;
    }
    // By index, as the definition says where number i stands.
    for (i, &number) in numbers.iter().enumerate() {
        if nth_number(bytes, i) != number {
            return false;
        }
    }
    true
}
