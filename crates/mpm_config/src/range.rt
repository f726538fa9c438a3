//! The table of numbers: of each directive whose value is a number, its default, its least and greatest
//! value, and the unit in which it is written. The definition has the same numbers (`specs/Range.antt`).
ghost use Rattle.std.specs.Prelude.{◌≡◌};

use crate::directive::Quantity;

/// The numbers that a value may be.
#[derive(Clone, Copy, Debug, PartialEq, Eq)]
pub struct NumberRange {
    /// What stands where no line names the directive.
    pub default: u32,
    /// The least number that may be written.
    pub least: u32,
    /// The greatest number that may be written.
    pub greatest: u32,
    /// What a written 0 is taken as; 0 where it means nothing else.
    pub zero: u32,
    /// What a written 1 is kept as: 1,000 for seconds that are kept in milliseconds, else 1.
    pub unit: u32,
}

/// The greatest whole number: nine digits.
pub const WHOLE: u32 = 999_999_999;

/// Any whole number, kept as it is written, 0 by default. What a line of the table has otherwise stands there.
const ANY_WHOLE: NumberRange = NumberRange {
    default: 0,
    least: 0,
    greatest: WHOLE,
    zero: 0,
    unit: 1,
};

pub const SERVER_LIMIT: NumberRange = NumberRange {
    default: 16,
    least: 1,
    greatest: 32,
    ..ANY_WHOLE
};

pub const THREAD_LIMIT: NumberRange = NumberRange {
    default: 64,
    least: 1,
    greatest: 64,
    ..ANY_WHOLE
};

pub const START_SERVERS: NumberRange = NumberRange {
    default: 3,
    ..ANY_WHOLE
};

pub const MIN_SPARE_THREADS: NumberRange = NumberRange {
    default: 75,
    ..ANY_WHOLE
};

pub const MAX_SPARE_THREADS: NumberRange = NumberRange {
    default: 250,
    ..ANY_WHOLE
};

pub const THREADS_PER_CHILD: NumberRange = NumberRange {
    default: 25,
    ..ANY_WHOLE
};

pub const MAX_REQUEST_WORKERS: NumberRange = NumberRange {
    default: 400,
    ..ANY_WHOLE
};

pub const MAX_CONNECTIONS_PER_CHILD: NumberRange = ANY_WHOLE;
/// In hundredths.
pub const ASYNC_REQUEST_WORKER_FACTOR: NumberRange = NumberRange {
    default: 200,
    least: 1,
    greatest: 10_000,
    ..ANY_WHOLE
};

/// In seconds.
pub const TIMEOUT: NumberRange = NumberRange {
    default: 60,
    least: 1,
    greatest: 65_535,
    unit: 1_000,
    ..ANY_WHOLE
};

/// In seconds.
pub const REQUEST_READ_TIMEOUT: NumberRange = NumberRange {
    greatest: 65_535,
    unit: 1_000,
    ..ANY_WHOLE
};

/// In seconds.
pub const KEEP_ALIVE_TIMEOUT: NumberRange = NumberRange {
    default: 5,
    least: 1,
    greatest: 65_535,
    unit: 1_000,
    ..ANY_WHOLE
};

/// The same directive where its value ends in `ms`, in milliseconds.
pub const KEEP_ALIVE_MILLISECONDS: NumberRange = NumberRange {
    default: 5_000,
    least: 1,
    greatest: 65_535_000,
    ..ANY_WHOLE
};

pub const MAX_KEEP_ALIVE_REQUESTS: NumberRange = NumberRange {
    default: 100,
    zero: 65_535,
    ..ANY_WHOLE
};

/// In seconds.
pub const GRACEFUL_SHUTDOWN_TIMEOUT: NumberRange = NumberRange {
    greatest: 65_535,
    unit: 1_000,
    ..ANY_WHOLE
};

/// In bytes.
pub const LIMIT_REQUEST_LINE: NumberRange = NumberRange {
    default: 8_190,
    least: 1,
    greatest: 65_000,
    ..ANY_WHOLE
};

/// In bytes, with the name of the field and without the line end.
pub const LIMIT_REQUEST_FIELD_SIZE: NumberRange = NumberRange {
    default: 8_190,
    least: 1,
    greatest: 65_000,
    ..ANY_WHOLE
};

pub const LIMIT_REQUEST_FIELDS: NumberRange = NumberRange {
    default: 100,
    greatest: 1_000,
    zero: 1_000,
    ..ANY_WHOLE
};

/// A port.
pub const PORT: NumberRange = NumberRange {
    default: 8_080,
    least: 1,
    greatest: 65_535,
    ..ANY_WHOLE
};

/// A part of an IPv4 address.
pub const OCTET: NumberRange = NumberRange {
    greatest: 255,
    ..ANY_WHOLE
};

impl Quantity {
    ghost use Rattle.mpm_config.specs.Range.{range_of};

    /// The line of the table.
    pub fn range(self) -> NumberRange
        ensures { result ≡ range_of self }
    {
        match self {
            Quantity::ServerLimit => SERVER_LIMIT,
            Quantity::ThreadLimit => THREAD_LIMIT,
            Quantity::StartServers => START_SERVERS,
            Quantity::MinSpareThreads => MIN_SPARE_THREADS,
            Quantity::MaxSpareThreads => MAX_SPARE_THREADS,
            Quantity::ThreadsPerChild => THREADS_PER_CHILD,
            Quantity::MaxRequestWorkers => MAX_REQUEST_WORKERS,
            Quantity::MaxConnectionsPerChild => MAX_CONNECTIONS_PER_CHILD,
            Quantity::AsyncRequestWorkerFactor => ASYNC_REQUEST_WORKER_FACTOR,
            Quantity::Timeout => TIMEOUT,
            Quantity::RequestReadTimeout => REQUEST_READ_TIMEOUT,
            Quantity::KeepAliveTimeout => KEEP_ALIVE_TIMEOUT,
            Quantity::MaxKeepAliveRequests => MAX_KEEP_ALIVE_REQUESTS,
            Quantity::GracefulShutdownTimeout => GRACEFUL_SHUTDOWN_TIMEOUT,
            Quantity::LimitRequestLine => LIMIT_REQUEST_LINE,
            Quantity::LimitRequestFieldSize => LIMIT_REQUEST_FIELD_SIZE,
            Quantity::LimitRequestFields => LIMIT_REQUEST_FIELDS,
        }
    }
}
