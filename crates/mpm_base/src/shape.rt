//! The numbers of a generation that the table works by.
/// What the table knows of a generation's configuration.
#[derive(Clone, Copy, Debug, PartialEq, Eq)]
pub struct Shape {
    /// ThreadsPerChild: workers of a child, 1 to 64.
    pub threads: u32,
    /// AsyncRequestWorkerFactor in hundredths, 1 to 10,000.
    pub factor: u32,
    /// Timeout in milliseconds, 1,000 to 65,535,000: for the rest of a request, and for room to write.
    pub read_ms: u64,
    /// KeepAliveTimeout in milliseconds, 1 to 65,535,000.
    pub keep_ms: u64,
    /// KeepAlive: whether a connection may have more than one response.
    pub keep: bool,
    /// MaxKeepAliveRequests: responses of one connection, 1 to 65,535.
    pub most: u32,
    /// StartServers: children to run, 1 to `children`.
    pub target: u32,
    /// Children that may run, 1 to 32.
    pub children: u32,
    /// RequestReadTimeout in milliseconds, 0 to 65,535,000: for a whole request; 0 stands for no limit.
    pub whole_ms: u64,
}
