//! The codes of responses, their numbers and their reasons.
ghost use Rattle.std.specs.Prelude.{◌≡◌, true};
ghost use Rattle.http_core.specs.Code as spec;
ghost use Rattle.http_core.specs.Code.{refuses_head};

/// The code of a response (RFC 9110, section 15).
#[derive(Clone, Copy)]
pub enum Code {
    /// Section 15.3.1.
    Ok,
    /// Section 15.3.7.
    PartialContent,
    /// Section 15.4.2.
    MovedPermanently,
    /// Section 15.4.5.
    NotModified,
    /// Section 15.5.1.
    BadRequest,
    /// Section 15.5.5.
    NotFound,
    /// Section 15.5.6.
    MethodNotAllowed,
    /// Section 15.5.13.
    PreconditionFailed,
    /// Section 15.5.14.
    ContentTooLarge,
    /// Section 15.5.15.
    UriTooLong,
    /// Section 15.5.17.
    RangeNotSatisfiable,
    /// Section 15.5.18.
    ExpectationFailed,
    /// Section 15.6.2.
    NotImplemented,
    /// Section 15.6.6.
    HttpVersionNotSupported,
}

impl Code {
    /// Its number.
    pub fn number(self) -> u16
        ensures { result ≡ spec.number_of self }
    {
        match self {
            Code::Ok => 200,
            Code::PartialContent => 206,
            Code::MovedPermanently => 301,
            Code::NotModified => 304,
            Code::BadRequest => 400,
            Code::NotFound => 404,
            Code::MethodNotAllowed => 405,
            Code::PreconditionFailed => 412,
            Code::ContentTooLarge => 413,
            Code::UriTooLong => 414,
            Code::RangeNotSatisfiable => 416,
            Code::ExpectationFailed => 417,
            Code::NotImplemented => 501,
            Code::HttpVersionNotSupported => 505,
        }
    }

    /// Its number and its reason, as they stand in the first line of a response (RFC 9112, section 4).
    pub fn text(self) -> &'static [u8]
        ensures { result.now ≡ spec.code_text self }
    {
        match self {
            Code::Ok => b"200 OK",
            Code::PartialContent => b"206 Partial Content",
            Code::MovedPermanently => b"301 Moved Permanently",
            Code::NotModified => b"304 Not Modified",
            Code::BadRequest => b"400 Bad Request",
            Code::NotFound => b"404 Not Found",
            Code::MethodNotAllowed => b"405 Method Not Allowed",
            Code::PreconditionFailed => b"412 Precondition Failed",
            Code::ContentTooLarge => b"413 Content Too Large",
            Code::UriTooLong => b"414 URI Too Long",
            Code::RangeNotSatisfiable => b"416 Range Not Satisfiable",
            Code::ExpectationFailed => b"417 Expectation Failed",
            Code::NotImplemented => b"501 Not Implemented",
            Code::HttpVersionNotSupported => b"505 HTTP Version Not Supported",
        }
    }
}

/// The code of a refused head, by its number.
pub fn refusal_code(number: u16) -> Code
    requires { refuses_head number ≡ true }
    ensures { spec.number_of result ≡ number }
{
    match number {
        400 => Code::BadRequest,
        413 => Code::ContentTooLarge,
        414 => Code::UriTooLong,
        417 => Code::ExpectationFailed,
        501 => Code::NotImplemented,
        505 => Code::HttpVersionNotSupported,
        _ => unreachable!(),
    }
}

/// The response that tells a client to send its body (RFC 9110, section 15.2.1).
pub fn continue_text() -> &'static [u8]
    ensures { result.now ≡ spec.continue_text }
{
    b"HTTP/1.1 100 Continue\r\n\r\n"
}
