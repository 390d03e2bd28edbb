// Arrays of a fixed length that hold a shorter list.
ghost use Rattle.std.specs.Prelude.{◌≡◌, ◌-◌, length, take, drop, replicate};

// The items, as many as there is room for, and behind them the filler.
pub fn padded<T: Copy, const N: usize>(items: &[T], filler: T) -> [T; N]
    ensures value { take (length items.now) result ≡ take N items.now }
    ensures rest { drop (length items.now) result ≡ replicate (N - length items.now) filler }
    ensures len { length result ≡ N }
{
    let mut all = [filler; N];
    let read = &items[0..items.len().min(N)];
    let places = &mut all[..];
    places[0..read.len()].copy_from_slice(read);
    all
}
