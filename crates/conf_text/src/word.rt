//! The words of a line.
ghost use Rattle.std.specs.Prelude.{◌≡◌, ◌<◌, ◌≤◌, ◌==◌, drop, false, length, option_map, position, slice_index};
ghost use Rattle.std.specs.List.{before_first, position_or_len};
ghost use Rattle.conf_text.specs.First.{Shows};
ghost use Rattle.conf_text.specs.Words.{from_blanks};
ghost use Rattle.conf_text.specs.Parts.{parts_around, Parts};
ghost use Rattle.conf_text.specs.Words.{in_quotes, in_word, is_blank, words};

/// The first word of a line, and the rest of the line.
#[derive(Clone, Copy, Debug)]
pub enum First<'a> {
    /// There is none.
    End,
    /// A quote that isn't closed.
    Unclosed,
    /// The word, without its quotes, and what follows it.
    Closed(&'a str, &'a str),
}

/// Whether it is a space or a tab.
pub fn is_blank(byte: u8) -> bool
    ensures { result ≡ is_blank byte }
{
    byte == b' ' || byte == b'\t'
}

/// What stands before and after the first quote.
fn at_quote(text: &str) -> Option<(&str, &str)>
    ensures { option_map (λ p. record { before = p.0.now; after = p.1.now }) result
        ≡ parts_around 34 text.now }
{
    text.split_once('"')
}

/// The place of the first blank.
fn blank_at(text: &[u8]) -> Option<usize>
    ensures { result ≡ position is_blank text.now }
{
    text.iter().position(|b| is_blank(*b))
}

/// The place of the first blank, or the length where there is none.
pub fn blank_place(text: &[u8]) -> usize
    ensures { result ≡ position_or_len is_blank text.now }
{
    blank_at(text).unwrap_or(text.len())
}

/// The text without its first byte, which is an ASCII character.
pub fn past_first(text: &str) -> &str
    requires some { 0 < length text.now }
    requires ascii { slice_index text.now 0 < 128 }
    ensures { result.now ≡ drop 1 text.now }
{
    text.split_at(1).1
}

/// What stands before the first blank, and what stands from there on.
pub fn at_blank(text: &str) -> (&str, &str)
    ensures before { result.0.now ≡ before_first is_blank text.now }
    ensures after { result.1.now ≡ drop (position_or_len is_blank text.now) text.now }
{
    text.split_at(blank_place(text.as_bytes()))
}

/// The line without the blanks at its front.
pub fn skip_blanks(line: &str) -> &str
    ensures value { result.now ≡ from_blanks line.now }
    ensures words { words result.now ≡ words line.now }
    ensures next { 0 < length result.now → is_blank (slice_index result.now 0) ≡ false }
{
    let mut rest = line;
    while !rest.is_empty() && is_blank(rest.as_bytes()[0]) {
        rest = past_first(rest);
    }
    rest
}

/// The first word from within quotes.
fn first_in_quotes(text: &str) -> First<'_>
    ensures { Shows (in_quotes text.now) result }
{
    match at_quote(text) {
        Some((word, after)) => First::Closed(word, after),
        None => First::Unclosed,
    }
}

/// The first word from within a word without quotes.
fn first_in_word(text: &str) -> First<'_>
    ensures { Shows (in_word text.now) result }
{
    let (word, after) = at_blank(text);
    First::Closed(word, after)
}

/// The first word of a line.
pub fn first_word(line: &str) -> First<'_>
    ensures { Shows (words line.now) result }
{
    let rest = skip_blanks(line);
    if rest.is_empty() {
        return First::End;
    }
    if rest.as_bytes()[0] == b'"' {
        return first_in_quotes(past_first(rest));
    }
    first_in_word(rest)
}
