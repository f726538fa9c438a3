//! Media types as they are written (RFC 9110, section 8.3.1).
ghost use Rattle.std.specs.Prelude.{◌≡◌};
ghost use Rattle.conf_text.specs.Parts.{parts_around};
ghost use Rattle.type_words.specs.TypeWords.{are_two_tokens, is_charset_parameter, is_media_type, is_type_text, without_spaces};

use crate::token::is_token;
use conf_text::around;

/// Whether it is two tokens with a slash between them.
fn are_two_tokens(text: &[u8]) -> bool
    ensures { result ≡ are_two_tokens (parts_around 47 text.now) }
{
    match around(text, b'/') {
        Some((before, after)) => is_token(before) && is_token(after),
        None => false,
    }
}

/// The text without the spaces at its front.
fn without_spaces(text: &[u8]) -> &[u8]
    ensures { result.now ≡ without_spaces text.now }
{
    let mut rest = text;
    while !rest.is_empty() && rest[0] == b' ' {
        rest = &rest[1..];
    }
    rest
}

/// Whether it is a parameter that names a character set.
fn is_charset_parameter(text: &[u8]) -> bool
    ensures { result ≡ is_charset_parameter text.now }
{
    match text.strip_prefix(b"charset=") {
        Some(charset) => is_token(charset),
        None => false,
    }
}

/// Whether it is a type, or a type, a semicolon, spaces or none, and such a parameter.
fn is_type_text(text: &[u8]) -> bool
    ensures { result ≡ is_type_text text.now (parts_around 59 text.now) }
{
    match around(text, b';') {
        Some((media, parameter)) => {
            are_two_tokens(media) && is_charset_parameter(without_spaces(parameter))
        }
        None => are_two_tokens(text),
    }
}

/// Whether it is a type of 3 to 127 bytes.
pub fn is_media_type(text: &[u8]) -> bool
    ensures { result ≡ is_media_type text.now }
{
    3 <= text.len() && text.len() <= 127 && is_type_text(text)
}
