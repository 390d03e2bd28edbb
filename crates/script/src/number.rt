// Numbers in text: hexadecimal and decimal digits, with no sign, no prefix and nothing between them.
ghost use Rattle.std.specs.Prelude.{◌≡◌, ◌-◌, ◌^◌, ◌<◌, ◌≤◌, Some};
ghost use Rattle.std.specs.Result.{result_ok, result_unwrap_or};
ghost use Rattle.script.specs.Numbers.{digit_in, followed_by, number_in, up_to, capped, Converted};
ghost use Rattle.script.specs.Bases.{digits_of};

// The base of a number's digits.
#[derive(Clone, Copy)]
enum Base {
    Decimal = 10,
    Hexadecimal = 16,
}

// Counting stops here: a number that is as great, or greater, is too great for every type, and stands as this one.
const CAP: u128 = 1 << 64;

impl Base {
    // How many digits it has.
    fn digits(self) -> u32
        ensures value { result ≡ digits_of self }
        ensures some { 2 ≤ result }
        ensures few { result ≤ 16 }
    {
        self as u32
    }
}

// What a digit of this base is worth, of either case.
#[tactic(auto, using(crate::proofs::Numbers::digit_read))]
fn digit_in(base: Base, byte: u8) -> Option<u32>
    ensures { result ≡ digit_in (digits_of base) byte }
{
    (byte as char).to_digit(base.digits())
}

// The number that all digits make, and the cap in place of any above it.
#[tactic(auto, using(crate::proofs::Numbers::read_all))]
fn digits_in(base: Base, digits: &[u8]) -> Option<u128>
    ensures { result ≡ capped (2 ^ 64) (followed_by (digits_of base) 0 digits.now) }
{
    let mut number = 0u128;
    for byte in digits {
        let digit = digit_in(base, *byte)?;
        number = (number * base.digits() as u128 + digit as u128).min(CAP);
    }
    Some(number)
}

fn number_in(base: Base, text: &str) -> Option<u128>
    ensures { result ≡ capped (2 ^ 64) (number_in (digits_of base) text.now) }
{
    if text.is_empty() {
        return None;
    }
    digits_in(base, text.as_bytes())
}

// The number that a text is in a base, if the type holds it.
fn limited<T: TryFrom<u128>>(base: Base, text: &str) -> Option<T>
where
    T::Error: Drop,
    ensures { Converted T.try_from_gives result_ok (capped (2 ^ 64) (number_in (digits_of base) text.now)) result }
{
    T::try_from(number_in(base, text)?).ok()
}

// The number that a text is in a base, and `most` in place of one that the type does not hold.
fn saturated<T: TryFrom<u128> + Drop>(base: Base, text: &str, most: T) -> Option<T>
where
    T::Error: Drop,
    ensures { Converted T.try_from_gives (λ r. Some (result_unwrap_or r most)) (capped (2 ^ 64) (number_in (digits_of base) text.now)) result }
{
    Some(T::try_from(number_in(base, text)?).unwrap_or(most))
}

// A key or a word: a hexadecimal number below 2^32.
pub fn read_word(text: &str) -> Option<u32>
    ensures { result ≡ up_to (2 ^ 32 - 1) (number_in 16 text.now) }
{
    limited::<u32>(Base::Hexadecimal, text)
}

// A byte: a hexadecimal number below 256.
pub fn read_byte(text: &str) -> Option<u8>
    ensures { result ≡ up_to 255 (number_in 16 text.now) }
{
    limited::<u8>(Base::Hexadecimal, text)
}

// A value: a decimal number below 2^64.
pub fn read_value(text: &str) -> Option<u64>
    ensures { result ≡ up_to (2 ^ 64 - 1) (number_in 10 text.now) }
{
    limited::<u64>(Base::Decimal, text)
}

// The kind of an item: a decimal number below 256.
pub fn read_kind(text: &str) -> Option<u8>
    ensures { result ≡ up_to 255 (number_in 10 text.now) }
{
    limited::<u8>(Base::Decimal, text)
}

// How many pairs a reply is to skip: a decimal number below 2^16.
pub fn read_position(text: &str) -> Option<u16>
    ensures { result ≡ up_to 65535 (number_in 10 text.now) }
{
    limited::<u16>(Base::Decimal, text)
}

// A count: any decimal number. One of 2^64 or more is read as 2^64 - 1.
pub fn read_count(text: &str) -> Option<usize>
    ensures { result ≡ capped (2 ^ 64 - 1) (number_in 10 text.now) }
{
    saturated(Base::Decimal, text, usize::MAX)
}

// The number of a layer: any decimal number. One of 256 or more is read as 255, which is no layer's either.
pub fn read_layer(text: &str) -> Option<u8>
    ensures { result ≡ capped 255 (number_in 10 text.now) }
{
    saturated(Base::Decimal, text, u8::MAX)
}
