//! Texts in which the case of letters doesn't count.
ghost use Rattle.std.specs.Prelude.{◌≡◌};
ghost use Rattle.mpm_base.specs.LetterCase.{is_same_ignoring_case};

/// Whether the texts are the same but for the case of ASCII letters.
pub fn is_same_ignoring_case(text: &[u8], other: &[u8]) -> bool
    ensures { result ≡ is_same_ignoring_case text.now other.now }
{
    text.eq_ignore_ascii_case(other)
}
