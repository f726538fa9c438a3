//! The words of a script's lines: numbers, and the names of connections and of files.
ghost use Rattle.std.specs.Prelude.{◌≡◌, ℕ, List, ◌↔◌, IsTrue, IfSome, IfNone};
ghost use Rattle.std.specs.List.{prefix_len};
ghost use Rattle.mpm_script.specs.ScriptLine.{is_name_byte, is_file_byte, IsName, IsFileName, IsNumber};
ghost use Rattle.mpm_script.specs.LineWordsInside.{IsNamed, IsFiled};

use mpm_base::number_in_digits;

const LONGEST_NAME: usize = 16;

const LONGEST_FILE_NAME: usize = 255;

const MOST_DIGITS: usize = 15;

/// The number that the text is.
pub(crate) fn number(text: &[u8]) -> Option<u64>
    ensures some { IfSome result (IsNumber text.now) }
    ensures none { IfNone result ((n : ℕ) → ¬ IsNumber text.now n) }
{
    number_in_digits(text, MOST_DIGITS)
}

fn is_name_byte(byte: u8) -> bool
    ensures { result ≡ is_name_byte byte }
{
    byte.is_ascii_lowercase() || byte.is_ascii_digit()
}

/// Whether the text may name a connection.
pub(crate) fn is_name(text: &[u8]) -> bool
    ensures { IsTrue result ↔ IsName text.now }
{
    !text.is_empty() && text.len() <= LONGEST_NAME && text.iter().all(|byte| is_name_byte(*byte))
}

fn is_file_byte(byte: u8) -> bool
    ensures { result ≡ is_file_byte byte }
{
    33 <= byte && byte <= 126
}

/// Whether the text may name a file.
pub(crate) fn is_file_name(text: &[u8]) -> bool
    ensures { IsTrue result ↔ IsFileName text.now }
{
    !text.is_empty()
        && text.len() <= LONGEST_FILE_NAME
        && text.iter().all(|byte| is_file_byte(*byte))
}

/// The name behind the word, and what stands behind the name.
pub(crate) fn named<'a>(text: &'a [u8], word: &[u8]) -> Option<(&'a [u8], &'a [u8])>
    ensures some { IfSome result (λ cut. IsNamed word.now text.now cut.0.now cut.1.now) }
    ensures none { IfNone result
        ((name behind : List ℕ) → ¬ IsNamed word.now text.now name behind) }
{
    let rest = text.strip_prefix(word)?;
    let (name, behind) = rest.split_at(name_len(rest));
    if is_name(name) {
        Some((name, behind))
    } else {
        None
    }
}

fn name_len(text: &[u8]) -> usize
    ensures { result ≡ prefix_len is_name_byte text.now }
{
    text.iter().take_while(|byte| is_name_byte(**byte)).count()
}

/// The name of the file that the line sets, and the text of its bytes.
pub(crate) fn filed(text: &[u8]) -> Option<(&[u8], &[u8])>
    ensures some { IfSome result (λ cut. IsFiled text.now cut.0.now cut.1.now) }
    ensures none { IfNone result ((name behind : List ℕ) → ¬ IsFiled text.now name behind) }
{
    let rest = text.strip_prefix(b"file ")?;
    let (name, end) = rest.split_at(file_name_len(rest));
    let behind = end.strip_prefix(b" ")?;
    if is_file_name(name) {
        Some((name, behind))
    } else {
        None
    }
}

fn file_name_len(text: &[u8]) -> usize
    ensures { result ≡ prefix_len is_file_byte text.now }
{
    text.iter().take_while(|byte| is_file_byte(**byte)).count()
}
