// Rotations of words, by the definitions of RFC 8439 and of the seed's expansion.
ghost use Rattle.std.specs.Prelude.{◌≡◌, ◌<◌, ◌≤◌};
ghost use Rattle.random.specs.Word.{rotate_left, rotate_right, RotatedRight};

// x rotated left by k of its 32 bits: the library's, under the definition of RFC 8439.
pub fn rotate_left(x: u32, k: u32) -> u32
    requires { (1 ≤ k) × (k < 32) }
    ensures { result ≡ rotate_left x k }
{
    x.rotate_left(k)
}

// x rotated right by k of its 32 bits: the library's, under the definition of the seed's expansion.
pub fn rotate_right(x: u32, k: u32) -> u32
    requires { k < 32 }
    ensures { (result ≡ rotate_right x k) × RotatedRight x k result }
{
    x.rotate_right(k)
}
