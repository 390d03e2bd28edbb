// The kinds of values.
ghost use Rattle.std.specs.Prelude.{◌≡◌, ◌==◌, nat_le};
ghost use Rattle.catalogue.specs.Kinds.{kind_of, is_signed, is_bits, is_known};

// Unsigned numbers, two's complement numbers, and bits, which have no order and no bounds. A number that names no kind is kept, so that the
// check of a catalogue can refuse its entry.
#[derive(Clone, Copy, PartialEq, Eq, Default, Debug)]
pub enum Kind {
    #[default]
    Unsigned,
    Signed,
    Bits,
    Unknown(u8),
}

impl From<u8> for Kind {
    ghost from_gives = { λ number kind. kind ≡ kind_of number };

    fn from(number: u8) -> Kind
        ensures value { result ≡ kind_of number }
        ensures signed { is_signed result ≡ (number == 1) }
        ensures bits { is_bits result ≡ (number == 2) }
        ensures known { is_known result ≡ nat_le number 2 }
    {
        match number {
            0 => Kind::Unsigned,
            1 => Kind::Signed,
            2 => Kind::Bits,
            _ => Kind::Unknown(number),
        }
    }
}
