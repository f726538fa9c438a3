//! What kind of line a line is: nothing, a section's opening or closing, or a directive.
ghost use Rattle.std.specs.Prelude.{◌≡◌, ◌==◌, ◌&&◌, ◌+◌, ◌<◌, drop, length, option_map, slice_index};
ghost use Rattle.std.specs.List.{list_all};
ghost use Rattle.conf_text.specs.Words.{is_blank, words};
ghost use Rattle.mpm_config.specs.Form.{before_end, closing_of, form_of, guard, guard_of, is_any_address, is_present, kind_of, of_inside, of_section, opening_of, takes_hosts};

use crate::value::port;
use conf_text::{First, around, at_blank, first_word, is_blank, past_first, skip_blanks};
use mpm_base::is_same_ignoring_case;

/// The kind of a section.
#[derive(Clone, Copy, Debug, PartialEq, Eq)]
pub enum Kind {
    /// IfModule.
    Module,
    /// VirtualHost.
    Host,
}

/// The kind of a line.
#[derive(Clone, Copy, Debug, PartialEq, Eq)]
pub enum Form {
    /// An empty line or a comment.
    Blank,
    /// The opening of a section of modules, and whether its guard holds; without a guard it has not exactly one name.
    Opening(Option<bool>),
    /// The opening of the section of a host, and whether its argument is right.
    OpeningHost(bool),
    /// The closing of a section of the kind.
    Closing(Kind),
    /// A closing with a word after its kind.
    ClosingWithWord,
    /// Any other line that begins with `<`.
    OtherSection,
    /// Every other line.
    Directive,
}

/// Whether a module of that name is there.
fn is_present(name: &[u8]) -> bool
    ensures { result ≡ is_present name.now }
{
    name == b"mpm_event_module".as_slice() || name == b"core_module".as_slice()
}

/// Whether a guard holds, where it has a name.
fn guard_of(argument: &[u8]) -> Option<bool>
    ensures { result ≡ guard_of argument.now }
{
    match argument {
        [] | [b'!'] => None,
        [b'!', name @ ..] => Some(!is_present(name)),
        name => Some(is_present(name)),
    }
}

/// The guard of an opening, where it has exactly one name.
fn guard(line: &str) -> Option<bool>
    ensures { result ≡ guard (words line.now) }
{
    let First::Closed(argument, after) = first_word(line) else {
        return None;
    };
    let First::End = first_word(after) else {
        return None;
    };
    guard_of(argument.as_bytes())
}

/// Whether it is any address: an asterisk, or one, a colon and a port.
fn is_any_address(value: &[u8]) -> bool
    ensures { result ≡ is_any_address value.now }
{
    match around(value, b':') {
        Some((before, after)) => before == b"*".as_slice() && port(after).is_some(),
        None => value == b"*".as_slice(),
    }
}

/// Whether it is the argument of the section of a host: exactly one such word.
fn takes_hosts(line: &str) -> bool
    ensures { result ≡ takes_hosts (words line.now) }
{
    let First::Closed(argument, after) = first_word(line) else {
        return false;
    };
    let First::End = first_word(after) else {
        return false;
    };
    is_any_address(argument.as_bytes())
}

/// The kind of a section that the word names, which stands without quotes.
fn kind_of(word: &[u8]) -> Option<Kind>
    ensures { result ≡ kind_of word.now }
{
    if is_same_ignoring_case(word, b"IfModule") {
        Some(Kind::Module)
    } else if is_same_ignoring_case(word, b"VirtualHost") {
        Some(Kind::Host)
    } else {
        None
    }
}

/// The form of an opening.
fn opening_of(text: &str) -> Form
    ensures { result ≡ opening_of text.now }
{
    let (word, after) = at_blank(text);
    match kind_of(word.as_bytes()) {
        Some(Kind::Module) => Form::Opening(guard(after)),
        Some(Kind::Host) => Form::OpeningHost(takes_hosts(after)),
        None => Form::OtherSection,
    }
}

/// The form of a closing, by what follows its slash.
fn closing_of(text: &str) -> Form
    ensures { result ≡ closing_of text.now }
{
    let (word, after) = at_blank(text);
    let Some(kind) = kind_of(word.as_bytes()) else {
        return Form::OtherSection;
    };
    match first_word(after) {
        First::End => Form::Closing(kind),
        _ => Form::ClosingWithWord,
    }
}

/// The kind of a section's line, by what stands between `<` and `>`.
fn of_inside(inside: &str) -> Form
    ensures { result ≡ of_inside inside.now }
{
    if inside.is_empty() {
        return Form::OtherSection;
    }
    if inside.as_bytes()[0] == b'/' {
        closing_of(past_first(inside))
    } else {
        opening_of(inside)
    }
}

/// Whether there are blanks alone.
fn all_blank(text: &[u8]) -> bool
    ensures { result ≡ list_all is_blank text.now }
{
    text.iter().all(|b| is_blank(*b))
}

/// Whether a `>` stands at the place and only blanks follow it.
fn ends_at(text: &[u8], place: usize) -> bool
    requires { place < length text.now }
    ensures { result
        ≡ (slice_index text.now place == 62 && list_all is_blank (drop (place + 1) text.now)) }
{
    text[place] == b'>' && all_blank(&text[place + 1..])
}

/// What stands before the `>` that only blanks follow.
fn before_end(text: &str) -> Option<&str>
    ensures { option_map (λ inside. inside.now) result ≡ before_end text.now }
{
    let bytes = text.as_bytes();
    for place in 0..bytes.len() {
        if ends_at(bytes, place) {
            return Some(&text[..place]);
        }
    }
    None
}

/// The kind of a line that begins with `<`, by what follows that.
fn of_section(text: &str) -> Form
    ensures { result ≡ of_section text.now }
{
    match before_end(text) {
        Some(inside) => of_inside(inside),
        None => Form::OtherSection,
    }
}

/// The kind of a line.
pub fn form_of(line: &str) -> Form
    ensures { result ≡ form_of line.now }
{
    let rest = skip_blanks(line);
    if rest.is_empty() || rest.as_bytes()[0] == b'#' {
        return Form::Blank;
    }
    if rest.as_bytes()[0] == b'<' {
        of_section(past_first(rest))
    } else {
        Form::Directive
    }
}
