//! The bytes of a word or an answer, kept for clauses alone.
ghost use Rattle.std.specs.Prelude.{◌≡◌, map};

use http_server::Log;

/// The bytes, in order, each beside a value that means nothing. They take no memory.
pub(crate) fn log_of(bytes: &[u8]) -> Log<u8, bool>
    ensures { map (λ byte. byte.0) result.items ≡ bytes.now }
{
    let mut told = Log::new();
    for byte in bytes {
        told = told.and(byte, &true);
    }
    told
}
