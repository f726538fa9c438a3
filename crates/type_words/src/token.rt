//! Tokens, and values that are one word.
ghost use Rattle.std.specs.Prelude.{◌≡◌};
ghost use Rattle.std.specs.List.{list_all};
ghost use Rattle.type_words.specs.TypeWords.{charset_of_value, is_token, is_token_byte, table_of_value};

use mpm_base::is_same_ignoring_case;

/// The bytes of a token beside letters and digits.
const TOKEN_MARKS: &[u8] = b"!#$%&'*+-.^_`|~";

/// Whether it is a byte of a token (RFC 9110, section 5.6.2).
fn is_token_byte(byte: u8) -> bool
    ensures { result ≡ is_token_byte byte }
{
    byte.is_ascii_alphanumeric() || TOKEN_MARKS.contains(&byte)
}

/// Whether all are such bytes.
fn are_token_bytes(value: &[u8]) -> bool
    ensures { result ≡ list_all is_token_byte value.now }
{
    value.iter().all(|byte| is_token_byte(*byte))
}

/// Whether it is a token.
pub fn is_token(value: &[u8]) -> bool
    ensures { result ≡ is_token value.now }
{
    !value.is_empty() && are_token_bytes(value)
}

/// Whether the value names a character set: a token of 1 to 40 bytes does, and Off doesn't, in which case of letters doesn't count.
/// Nothing where it is neither.
pub fn charset_of_value(value: &[u8]) -> Option<bool>
    ensures { result ≡ charset_of_value value.now }
{
    if is_same_ignoring_case(value, b"Off") {
        Some(false)
    } else if is_token(value) && value.len() <= 40 {
        Some(true)
    } else {
        None
    }
}

/// Whether the long table counts: Long or Short, in which case of letters doesn't count.
pub fn table_of_value(value: &[u8]) -> Option<bool>
    ensures { result ≡ table_of_value value.now }
{
    if is_same_ignoring_case(value, b"Long") {
        Some(true)
    } else if is_same_ignoring_case(value, b"Short") {
        Some(false)
    } else {
        None
    }
}
