//! The request line of what a connection received.
ghost use Rattle.std.specs.Prelude.{◌≡◌, ◌==◌};
ghost use Rattle.std.specs.List.{position_or_len};
ghost use Rattle.http_read.specs.Head.{head_window};
ghost use Rattle.access_log.specs.RequestLine as spec;

use http_read::{GREATEST_HEAD, line_len, place_of_byte};

/// The first line that isn't empty, without its end; of one that has none, what is there.
fn first_filled(bytes: &[u8]) -> &[u8]
    ensures { result.now ≡ spec.first_filled (spec.lines_of bytes.now) }
{
    let mut left = bytes;
    let mut feed = place_of_byte(left, b'\n');
    while feed < left.len() {
        let len = line_len(&left[..feed]);
        if len > 0 {
            return &left[..len];
        }
        left = &left[feed + 1..];
        feed = place_of_byte(left, b'\n');
    }
    left
}

/// The request line of the head at the front of the bytes that a connection received, whole or refused: without its end and without the
/// empty lines before it, and cut to `limit` bytes, its LimitRequestLine. Of a head whose first line isn't whole it is what is there.
pub fn request_line(bytes: &[u8], limit: u32) -> &[u8]
    ensures { result.now ≡ spec.request_line limit bytes.now }
{
    let window = &bytes[..bytes.len().min(GREATEST_HEAD + 1)];
    let line = first_filled(window);
    &line[..line.len().min(limit as usize)]
}
