// The end of a message: the bytes behind its last whole block, padded to one block or two.
ghost use Rattle.std.specs.Prelude.{◌≡◌, ◌*◌, ◌%◌, ◌^◌, ◌<◌, ◌++◌, length};
ghost use Rattle.sha256.specs.Sha256.{zero_bytes, LeastZeros, long_bytes, padding};

use arrayvec::ArrayVec;

// How many zeros stand between the byte 0x80 and the length, behind a tail of n bytes.
fn zeros(n: usize) -> usize
    requires { n < 64 }
    ensures value { result ≡ zero_bytes n }
    ensures least { LeastZeros }
{
    if n <= 55 { 55 - n } else { 119 - n }
}

// The length of a message of `total` bytes, in bits, as the padding ends with it. (A cast, since `u64` has no `From<usize>`, and a `try_from` that is then unwrapped would be no plainer.)
fn length_bytes(total: usize) -> [u8; 8]
    ensures { result ≡ long_bytes ((total * 8) % 2 ^ 64) }
{
    (total as u64).wrapping_mul(8).to_be_bytes()
}

// The tail of a message of `total` bytes, and behind it the message's padding.
pub(crate) fn padded(tail: &[u8], total: usize) -> ArrayVec<u8, 128>
    requires { length tail.now ≡ total % 64 }
    ensures { result.items ≡ tail.now ++ padding total }
{
    let mut end = ArrayVec::new();
    end.try_extend_from_slice(tail).unwrap();
    end.push(0x80);
    end.try_extend_from_slice(&[0; 64][..zeros(tail.len())])
        .unwrap();
    end.try_extend_from_slice(&length_bytes(total)).unwrap();
    end
}
