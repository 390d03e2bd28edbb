// The held bytes stand in one array, from `start` to `end`, and their sums in another. Dropping moves `start` alone; only taking moves bytes to
// the array's front, and only where there is no room left behind them. There is room for twice the bytes that may be held, so that no byte is
// moved twice before as many were dropped.
ghost use Rattle.std.specs.Prelude.{◌≡◌, ◌+◌, ◌≤◌, length};
ghost use Rattle.held.specs.Sums.{SummedTo};

pub mod calls;

#[derive(Drop)]
pub struct Held {
    // kept: fixed memory; a vector of fixed capacity would want `start` beside it too, and its bytes moved to the front by the same two steps
    bytes: [u8; 1560],
    // the sums over the bytes, begun at some byte that was taken: before each byte and behind the last
    sums: [u8; 1562],
    start: usize,
    end: usize,
    ghost whole: { length bytes ≡ 1560 },
    ghost sums_whole: { length sums ≡ 1562 },
    ghost order: { start ≤ end },
    ghost within: { end ≤ 1560 },
    ghost few: { end ≤ start + 780 },
    ghost summed: { SummedTo bytes sums end },
}
