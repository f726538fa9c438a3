//! The parts of a word around a byte.
ghost use Rattle.std.specs.Prelude.{◌≡◌, ◌==◌, position, option_map};
ghost use Rattle.conf_text.specs.Parts.{parts_around, Parts};

/// The place of the first such byte.
pub fn place_of(value: &[u8], byte: u8) -> Option<usize>
    ensures { result ≡ position (λ b. b == byte) value.now }
{
    value.iter().position(|b| *b == byte)
}

/// What stands before and after the first such byte.
pub fn around(value: &[u8], at: u8) -> Option<(&[u8], &[u8])>
    ensures { option_map (λ p. record { before = p.0.now; after = p.1.now }) result
        ≡ parts_around at value.now }
{
    let place = place_of(value, at)?;
    Some((&value[..place], &value[place + 1..]))
}
