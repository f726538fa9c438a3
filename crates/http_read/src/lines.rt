//! A line of a head.
ghost use Rattle.std.specs.Prelude.{◌≡◌};
ghost use Rattle.http_read.specs.HeadLines.{line_len};

/// How long the line is without a CR at its end.
pub fn line_len(line: &[u8]) -> usize
    ensures { result ≡ line_len line.now }
{
    match line {
        [.., last] if *last == b'\r' => line.len() - 1,
        _ => line.len(),
    }
}
