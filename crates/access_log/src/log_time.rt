//! The time of a log line.
ghost use Rattle.std.specs.Prelude.{◌≡◌};
ghost use Rattle.httpdate.specs.Date.{unix_secs};
ghost use Rattle.mpm_base.specs.Moment.{IsSecond};
ghost use Rattle.access_log.specs.LogTime as spec;

use crate::laws::times_are_those_of_dates;
use httpdate::HttpDate;

/// The date at a second since 1970-01-01 00:00:00 UTC.
fn date_at(second: u64) -> HttpDate
    requires { IsSecond second }
    ensures { unix_secs result ≡ second }
{
    let Ok(date) = HttpDate::from_unix_secs(second) else {
        unreachable!()
    };
    date
}

/// Day, month, year and time of day, of the text that HTTP has for the date.
fn text_of(date: &HttpDate) -> [u8; 20]
    ensures { result ≡ spec.time_text date.now.parts }
{
    let text = date.to_bytes();
    [
        text[5], text[6], b'/', text[8], text[9], text[10], b'/', text[12], text[13], text[14],
        text[15], b':', text[17], text[18], text[19], text[20], text[21], text[22], text[23],
        text[24],
    ]
}

/// The time of a second since 1970-01-01 00:00:00 UTC, as `01/Jan/1970:00:00:00`.
pub(crate) fn time_text(second: u64) -> [u8; 20]
    requires { IsSecond second }
    ensures { result ≡ spec.time_text (spec.parts_at second) }
{
    times_are_those_of_dates();
    let date = date_at(second);
    text_of(&date)
}
