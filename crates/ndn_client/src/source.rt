//! The address and the port from which packets are sent.

ghost use Rattle.std.specs.Prelude.{◌≡◌, unwrap_or};
ghost use Rattle.std.specs.Net.Socket.{socket_ip, socket_port};
ghost use Rattle.ndn_client.specs.Source.{IsSourceIp, IsSourceV4, IsSourceV6};

use std::net::{IpAddr, Ipv4Addr, Ipv6Addr, SocketAddr};

/// Returns the address and the port from which packets to `to` are sent. If `from` is not given,
/// the port is 0, which stands for a port that the system chooses. The address has the family of
/// `to`. It is a loopback address if `to` is one, and otherwise the unspecified address, which
/// stands for any address of this machine.
pub fn source_of(from: Option<u16>, to: &SocketAddr) -> SocketAddr
    ensures ip { IsSourceIp (socket_ip to.now) (socket_ip result) }
    ensures port { socket_port result ≡ unwrap_or from 0 }
{
    SocketAddr::new(source_ip(to.ip()), from.unwrap_or(0))
}

fn source_ip(to: IpAddr) -> IpAddr
    ensures { IsSourceIp to result }
{
    match to {
        IpAddr::V4(to) => IpAddr::V4(source_v4(to)),
        IpAddr::V6(to) => IpAddr::V6(source_v6(to)),
    }
}

fn source_v4(to: Ipv4Addr) -> Ipv4Addr
    ensures { IsSourceV4 to result }
{
    if to.is_loopback() {
        Ipv4Addr::LOCALHOST
    } else {
        Ipv4Addr::UNSPECIFIED
    }
}

fn source_v6(to: Ipv6Addr) -> Ipv6Addr
    ensures { IsSourceV6 to result }
{
    if to.is_loopback() {
        Ipv6Addr::LOCALHOST
    } else {
        Ipv6Addr::UNSPECIFIED
    }
}
