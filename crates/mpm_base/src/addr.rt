//! The address that a server listens at.

/// An IPv4 address and a port.
#[derive(Clone, Copy, Debug, PartialEq, Eq)]
pub struct Addr {
    /// The four octets of the address, in the order in which it is written.
    pub host: [u8; 4],
    /// The port, 1 to 65,535.
    pub port: u16,
}
