//! The codes by which a head or a body is refused (RFC 9110, section 15).

/// The bytes are not of the form.
pub(crate) const BAD_REQUEST: u16 = 400;

/// The body is longer than any that is taken.
pub(crate) const CONTENT_TOO_LARGE: u16 = 413;

/// The first line is longer than its limit.
pub(crate) const URI_TOO_LONG: u16 = 414;

/// The request expects what isn't done here.
pub(crate) const EXPECTATION_FAILED: u16 = 417;

/// The body is coded otherwise before it is chunked.
pub(crate) const NOT_IMPLEMENTED: u16 = 501;

/// The first line names another major version than 1.
pub(crate) const HTTP_VERSION_NOT_SUPPORTED: u16 = 505;
