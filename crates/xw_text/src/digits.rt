//! Decimal digits.
ghost use Rattle.std.specs.Prelude.{◌≡◌, true};
ghost use Rattle.std.specs.List.{list_all};
ghost use Rattle.std.specs.Str.Parse.{digits_value};
ghost use Rattle.xw_text.specs.Digits.{is_digit as spec_is_digit, is_number as spec_is_number};

/// The maximum number of digits that `value` takes: the value of any so many digits fits in 64 bits.
pub const MOST_DIGITS: usize = 18;

fn is_digit(byte: u8) -> bool
    ensures { result ≡ spec_is_digit byte }
{
    byte.is_ascii_digit()
}

fn all_digits(text: &[u8]) -> bool
    ensures { result ≡ list_all spec_is_digit text.now }
{
    text.iter().all(|byte| is_digit(*byte))
}

/// Whether a text is 1 to `most` decimal digits.
pub fn is_number(text: &[u8], most: usize) -> bool
    ensures { result ≡ spec_is_number most text.now }
{
    (1..=most).contains(&text.len()) && all_digits(text)
}

/// The value of decimal digits.
pub fn value(digits: &[u8]) -> u64
    requires { spec_is_number 18 digits.now ≡ true }
    ensures { result ≡ digits_value 10 digits.now }
{
    let mut value = 0;
    for digit in digits {
        value = 10 * value + u64::from(*digit - b'0');
    }
    value
}
