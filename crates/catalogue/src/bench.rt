// The bench catalogue: seven items on which the examples of this repository are worked.
ghost use Rattle.std.specs.Prelude.{◌≡◌};
ghost use Rattle.catalogue.specs.Bench.{bench, BenchFacts};
ghost use Rattle.catalogue.specs.declared.kind.Kind.TheVariants.{Unsigned, Bits};

use crate::entries::Entry;
use crate::kind::Kind;

// An entry with unsigned values.
fn unsigned(key: u32, default: u64, low: u64, high: u64) -> Entry
    ensures { result ≡ record { key = key; kind = Unsigned; default = default; low = low; high = high } }
{
    Entry {
        key,
        kind: Kind::Unsigned,
        default,
        low,
        high,
    }
}

// An entry with bits, all zero by default.
fn bits(key: u32) -> Entry
    ensures { result ≡ record { key = key; kind = Bits; default = 0; low = 0; high = 0 } }
{
    Entry {
        key,
        kind: Kind::Bits,
        default: 0,
        low: 0,
        high: 0,
    }
}

// The entries of the bench catalogue.
pub fn bench_catalogue() -> [Entry; 7]
    ensures value { result ≡ bench }
    ensures facts { BenchFacts }
{
    [
        unsigned(0x1051_0002, 0, 0, 1),
        unsigned(0x1051_0003, 1, 0, 1),
        unsigned(0x2051_0001, 65, 8, 119),
        unsigned(0x2091_033b, 0, 0, 10),
        unsigned(0x2091_033d, 0, 0, 10),
        bits(0x2092_0002),
        bits(0x2092_0004),
    ]
}
