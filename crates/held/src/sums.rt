// Summing up bytes that are taken: each is gone through once. Of the two sums only B is kept, one byte for each byte: A is what B grew by.
ghost use Rattle.std.specs.Prelude.{◌≡◌, ◌+◌, ◌<◌, ◌≤◌, length};
ghost use Rattle.held.specs.Sums.{sums_before, SummedTo};

use frame::CheckBytes;

// The sums before the byte at a place.
pub(crate) fn sums_before(kept: &[u8], place: usize) -> CheckBytes
    requires { place + 1 < length kept.now }
    ensures value { result ≡ sums_before kept.now place }
    ensures byte { result.b < 256 }
{
    let b = kept[place + 1];
    CheckBytes {
        a: b.wrapping_sub(kept[place]),
        b,
    }
}

// Keeps the sums behind the bytes from one place to another; those behind the bytes before are kept.
pub(crate) fn sum_up(bytes: &[u8], kept: &mut [u8], start: usize, end: usize)
    requires order { start ≤ end }
    requires within { end ≤ length bytes.now }
    requires room { end + 1 < length kept.old }
    requires before { SummedTo bytes.now kept.old start }
    ensures after { SummedTo bytes.now kept.new end }
    ensures len { length kept.new ≡ length kept.old }
{
    let mut so_far = sums_before(kept, start);
    for place in start..end {
        so_far = so_far.with(bytes[place]);
        kept[place + 2] = so_far.b;
    }
}
