//! Where connections and command lines are taken, and where a command is sent.
ghost use Rattle.socket_outside.specs.Addresses.{IsAddress, IsOfThisMachine};

use mpm_base::Addr;
use std::net::{IpAddr, Ipv4Addr, SocketAddr};

/// Where connections are taken.
pub fn listen_address(listen: Addr) -> SocketAddr
    ensures { IsAddress listen.host listen.port result }
{
    SocketAddr::new(IpAddr::V4(Ipv4Addr::from(listen.host)), listen.port)
}

/// Where command lines are taken, and where a command is sent.
pub fn control_address(port: u16) -> SocketAddr
    ensures { IsOfThisMachine port result }
{
    SocketAddr::new(IpAddr::V4(Ipv4Addr::new(127, 0, 0, 1)), port)
}
