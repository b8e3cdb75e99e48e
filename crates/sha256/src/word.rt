// The functions on 32-bit words that the hash is made of.
ghost use Rattle.std.specs.Prelude.{◌≡◌, ◌<◌};
ghost use Rattle.std.specs.Int.{rotate_right, w32};
ghost use Rattle.sha256.specs.Words.{◌⊕◌, shr, choose, majority};

// Each bit of y where x has a 1, of z where x has a 0.
pub(crate) fn ch(x: u32, y: u32, z: u32) -> u32
    ensures { result ≡ choose x y z }
{
    (x & y) ^ (!x & z)
}

// Each bit that at least two of the three words have.
pub(crate) fn maj(x: u32, y: u32, z: u32) -> u32
    ensures { result ≡ majority x y z }
{
    (x & y) ^ (x & z) ^ (y & z)
}

// Three rotations of x. A caller's numbers make of it one of the standard's Σ0 and Σ1.
pub(crate) fn big_sigma<const A: u32, const B: u32, const C: u32>(x: u32) -> u32
    ensures { result ≡ rotate_right w32 x A ⊕ rotate_right w32 x B ⊕ rotate_right w32 x C }
{
    x.rotate_right(A) ^ x.rotate_right(B) ^ x.rotate_right(C)
}

// Two rotations of x and a shift. A caller's numbers make of it one of the standard's σ0 and σ1.
pub(crate) fn small_sigma<const A: u32, const B: u32, const C: u32>(x: u32) -> u32
    requires { C < 32 }
    ensures { result ≡ rotate_right w32 x A ⊕ rotate_right w32 x B ⊕ shr C x }
{
    x.rotate_right(A) ^ x.rotate_right(B) ^ (x >> C)
}
