//! The numbers of a configuration.
ghost use Rattle.std.specs.Prelude.{◌≡◌, ◌<◌, ◌^◌};

use crate::directive::Quantity;
use crate::range::{
    ASYNC_REQUEST_WORKER_FACTOR, GRACEFUL_SHUTDOWN_TIMEOUT, KEEP_ALIVE_TIMEOUT,
    LIMIT_REQUEST_FIELD_SIZE, LIMIT_REQUEST_FIELDS, LIMIT_REQUEST_LINE, MAX_CONNECTIONS_PER_CHILD,
    MAX_KEEP_ALIVE_REQUESTS, MAX_REQUEST_WORKERS, MAX_SPARE_THREADS, MIN_SPARE_THREADS,
    REQUEST_READ_TIMEOUT, SERVER_LIMIT, START_SERVERS, THREAD_LIMIT, THREADS_PER_CHILD, TIMEOUT,
};

/// The numbers of a configuration, and whether connections are kept.
#[derive(Clone, Copy, Debug, PartialEq, Eq)]
pub struct Numbers {
    /// ServerLimit, 1 to 32.
    pub server_limit: u32,
    /// ThreadLimit, 1 to 64.
    pub thread_limit: u32,
    /// StartServers.
    pub start_servers: u32,
    /// MinSpareThreads.
    pub min_spare: u32,
    /// MaxSpareThreads.
    pub max_spare: u32,
    /// ThreadsPerChild.
    pub threads: u32,
    /// MaxRequestWorkers.
    pub max_workers: u32,
    /// MaxConnectionsPerChild; 0 stands for no limit.
    pub max_conns: u32,
    /// AsyncRequestWorkerFactor in hundredths, 1 to 10,000.
    pub factor: u32,
    /// Timeout in milliseconds, 1,000 to 65,535,000.
    pub timeout_ms: u64,
    /// RequestReadTimeout in milliseconds, 0 to 65,535,000; 0 stands for no limit.
    pub whole_ms: u64,
    /// KeepAliveTimeout in milliseconds, 1 to 65,535,000.
    pub keep_ms: u64,
    /// KeepAlive.
    pub keep: bool,
    /// MaxKeepAliveRequests, at least 1.
    pub most: u32,
    /// GracefulShutdownTimeout in milliseconds, 0 to 65,535,000; 0 stands for no limit.
    pub stop_ms: u64,
    /// LimitRequestLine in bytes, 1 to 65,000.
    pub line: u32,
    /// LimitRequestFieldSize in bytes, 1 to 65,000.
    pub field: u32,
    /// LimitRequestFields, 1 to 1,000.
    pub fields: u32,
}

impl Numbers {
    ghost use Rattle.mpm_config.specs.Numbers.{initial_numbers, number_at, with_number};

    /// The numbers of the empty configuration.
    pub(crate) fn initial() -> Numbers
        ensures { result ≡ initial_numbers }
    {
        Numbers {
            server_limit: SERVER_LIMIT.default,
            thread_limit: THREAD_LIMIT.default,
            start_servers: START_SERVERS.default,
            min_spare: MIN_SPARE_THREADS.default,
            max_spare: MAX_SPARE_THREADS.default,
            threads: THREADS_PER_CHILD.default,
            max_workers: MAX_REQUEST_WORKERS.default,
            max_conns: MAX_CONNECTIONS_PER_CHILD.default,
            factor: ASYNC_REQUEST_WORKER_FACTOR.default,
            timeout_ms: u64::from(TIMEOUT.default) * u64::from(TIMEOUT.unit),
            whole_ms: u64::from(REQUEST_READ_TIMEOUT.default)
                * u64::from(REQUEST_READ_TIMEOUT.unit),
            keep_ms: u64::from(KEEP_ALIVE_TIMEOUT.default) * u64::from(KEEP_ALIVE_TIMEOUT.unit),
            keep: true,
            most: MAX_KEEP_ALIVE_REQUESTS.default,
            stop_ms: u64::from(GRACEFUL_SHUTDOWN_TIMEOUT.default)
                * u64::from(GRACEFUL_SHUTDOWN_TIMEOUT.unit),
            line: LIMIT_REQUEST_LINE.default,
            field: LIMIT_REQUEST_FIELD_SIZE.default,
            fields: LIMIT_REQUEST_FIELDS.default,
        }
    }

    /// One of the numbers.
    pub(crate) fn get(&self, quantity: Quantity) -> u64
        ensures { result ≡ number_at self.now quantity }
    {
        match quantity {
            Quantity::ServerLimit => u64::from(self.server_limit),
            Quantity::ThreadLimit => u64::from(self.thread_limit),
            Quantity::StartServers => u64::from(self.start_servers),
            Quantity::MinSpareThreads => u64::from(self.min_spare),
            Quantity::MaxSpareThreads => u64::from(self.max_spare),
            Quantity::ThreadsPerChild => u64::from(self.threads),
            Quantity::MaxRequestWorkers => u64::from(self.max_workers),
            Quantity::MaxConnectionsPerChild => u64::from(self.max_conns),
            Quantity::AsyncRequestWorkerFactor => u64::from(self.factor),
            Quantity::Timeout => self.timeout_ms,
            Quantity::RequestReadTimeout => self.whole_ms,
            Quantity::KeepAliveTimeout => self.keep_ms,
            Quantity::MaxKeepAliveRequests => u64::from(self.most),
            Quantity::GracefulShutdownTimeout => self.stop_ms,
            Quantity::LimitRequestLine => u64::from(self.line),
            Quantity::LimitRequestFieldSize => u64::from(self.field),
            Quantity::LimitRequestFields => u64::from(self.fields),
        }
    }

    /// Sets one of the numbers.
    pub(crate) fn set(&mut self, quantity: Quantity, number: u32)
        ensures { self.new ≡ with_number self.old quantity number }
    {
        match quantity {
            Quantity::ServerLimit => self.server_limit = number,
            Quantity::ThreadLimit => self.thread_limit = number,
            Quantity::StartServers => self.start_servers = number,
            Quantity::MinSpareThreads => self.min_spare = number,
            Quantity::MaxSpareThreads => self.max_spare = number,
            Quantity::ThreadsPerChild => self.threads = number,
            Quantity::MaxRequestWorkers => self.max_workers = number,
            Quantity::MaxConnectionsPerChild => self.max_conns = number,
            Quantity::AsyncRequestWorkerFactor => self.factor = number,
            Quantity::Timeout => self.timeout_ms = u64::from(number),
            Quantity::RequestReadTimeout => self.whole_ms = u64::from(number),
            Quantity::KeepAliveTimeout => self.keep_ms = u64::from(number),
            Quantity::MaxKeepAliveRequests => self.most = number,
            Quantity::GracefulShutdownTimeout => self.stop_ms = u64::from(number),
            Quantity::LimitRequestLine => self.line = number,
            Quantity::LimitRequestFieldSize => self.field = number,
            Quantity::LimitRequestFields => self.fields = number,
        }
    }
}
