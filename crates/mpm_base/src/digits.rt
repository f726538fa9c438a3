//! Reads decimal digits.
ghost use Rattle.std.specs.Prelude.{◌≡◌, ◌<◌, ◌≤◌, ◌^◌, length, IfSome};
ghost use Rattle.std.specs.List.{list_all};
ghost use Rattle.std.specs.Char.{is_ascii_digit};
ghost use Rattle.std.specs.Str.Parse.{digits_value, AllDigits};
ghost use Rattle.mpm_base.specs.Digits.{is_number, number_in_digits};

/// The number that 1 to `most` decimal digits spell. None where the text is something else.
pub fn number_in_digits(text: &[u8], most: usize) -> Option<u64>
    requires few { most ≤ 18 }
    ensures value { result ≡ number_in_digits most text.now }
    ensures bound { IfSome result (λ n. n < 10 ^ most) }
{
    if is_number(text, most) {
        Some(decimal_value(text))
    } else {
        None
    }
}

/// Whether the text is 1 to `most` decimal digits.
fn is_number(text: &[u8], most: usize) -> bool
    ensures { result ≡ is_number most text.now }
{
    1 <= text.len() && text.len() <= most && all_digits(text)
}

/// Whether each byte is a decimal digit.
fn all_digits(text: &[u8]) -> bool
    ensures { result ≡ list_all is_ascii_digit text.now }
{
    text.iter().all(|b| b.is_ascii_digit())
}

/// The number that so many decimal digits spell, at most 18.
fn decimal_value(digits: &[u8]) -> u64
    requires few { length digits.now ≤ 18 }
    requires digits { AllDigits 10 digits.now }
    ensures value { result ≡ digits_value 10 digits.now }
    ensures bound { result < 10 ^ length digits.now }
{
    let mut n = 0;
    for digit in digits {
        n = n * 10 + u64::from(*digit - b'0');
    }
    n
}
