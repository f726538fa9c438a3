//! Texts in two parts.
ghost use Rattle.std.specs.Prelude.{◌≡◌, ◌++◌};
ghost use Rattle.std.specs.Str.{bytes_eq};

/// Whether the text is the front and behind it the back. So a text that is looked for needn't be put together.
pub fn is_made_of(text: &[u8], front: &[u8], back: &[u8]) -> bool
    ensures { result ≡ bytes_eq text.now (front.now ++ back.now) }
{
    text.starts_with(front) && &text[front.len()..] == back
}
