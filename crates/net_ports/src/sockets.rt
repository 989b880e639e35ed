//! The sockets that a node waits for.
ghost use Rattle.std.specs.Prelude.{◌≡◌, None, true, IfSome};
ghost use Rattle.face_table.specs.declared.link.Link.{Link};
ghost use Rattle.net_ports.specs.Links.{IsOverTcp, IsOverWebSocket};

use crate::faces::{ConnectedFace, wake};
use crate::handshakes::Handshake;
use crate::wire::Wire;
use crate::{handshakes, unix_path};
use face_table::Link;
use mio::event::Source;
use mio::net::{TcpListener, TcpStream, UnixListener};
use mio::unix::SourceFd;
use mio::{Events, Interest, Poll, Token};
use std::alloc::Global;
use std::io;
use std::net::{Net, SocketAddr, UdpSocket};
use std::os::fd::AsRawFd;
use std::rt::Files;
use std::time::Duration;
use thiserror::Error;

/// How many events one wait reports at most. Further ones are reported by the next wait.
const EVENTS: usize = 128;

const UDP: usize = 0;

const TCP: usize = 1;

const UNIX: usize = 2;

const WEBSOCKET: usize = 3;

/// The token of the connection with the number 0. The other connections follow by their numbers.
const FIRST_CONNECTION: usize = 16;

/// Where a node listens for connections.
#[derive(Clone, Copy)]
pub struct Listen<'a> {
    /// The address and port for TCP connections, if any.
    pub tcp: Option<SocketAddr>,
    /// The path of the Unix socket, if any.
    pub unix: Option<&'a str>,
    /// The address and port for WebSocket connections, if any.
    pub websocket: Option<SocketAddr>,
    /// The origins of the web pages that may connect over WebSocket, such as
    /// `https://example.org`.
    pub origins: &'a [String],
}

/// A socket could not be opened.
#[derive(Clone, Copy, Debug, PartialEq, Eq, Error)]
pub enum BindFault {
    #[error("the system cannot wait for several sockets")]
    Poll,
    #[error("the node cannot listen on the TCP endpoint")]
    Tcp,
    #[error("the node cannot listen on the Unix socket")]
    Unix,
    #[error("the node cannot listen on the endpoint for WebSocket")]
    WebSocket,
    #[error("out of memory")]
    Memory,
}

/// The sockets that a node waits for, and which of them may have something. A socket that has
/// something is reported once, so it counts as ready until it says that it would wait.
#[derive(Drop)]
pub struct Sockets {
    poll: Poll,
    events: Events,
    tcp: Option<TcpListener>,
    unix: Option<UnixListener>,
    websocket: Option<TcpListener>,
    /// Whether the UDP socket may have a datagram.
    pub is_udp_ready: bool,
    is_tcp_ready: bool,
    is_unix_ready: bool,
    is_websocket_ready: bool,
}

impl Sockets {
    /// Opens the sockets of `listen`, and waits for them and for `udp` from now on.
    pub fn open<R: AllocGlobal + Files + Net>(
        rt: &R,
        udp: &UdpSocket,
        listen: Listen<'_>,
    ) -> Result<Sockets, BindFault> {
        let mut sockets = match Sockets::waiting_for(rt, udp) {
            Ok(sockets) => sockets,
            Err(_) => return Err(BindFault::Poll),
        };
        if let Some(endpoint) = listen.tcp
            && sockets.listen_on_tcp(rt, endpoint).is_err()
        {
            return Err(BindFault::Tcp);
        }
        if let Some(path) = listen.unix
            && sockets.listen_on_unix(rt, path).is_err()
        {
            return Err(BindFault::Unix);
        }
        if let Some(endpoint) = listen.websocket
            && sockets.listen_on_websocket(rt, endpoint).is_err()
        {
            return Err(BindFault::WebSocket);
        }
        Ok(sockets)
    }

    fn waiting_for<R: AllocGlobal + Net>(rt: &R, udp: &UdpSocket) -> io::Result<Sockets> {
        let alloc: Global = rt.alloc();
        let poll = Poll::new(rt)?;
        let descriptor = udp.as_raw_fd();
        let mut source = SourceFd(&descriptor);
        poll.registry()
            .register(&mut source, Token(UDP), Interest::READABLE)?;
        Ok(Sockets {
            poll,
            events: Events::with_capacity(alloc, EVENTS)?,
            tcp: None,
            unix: None,
            websocket: None,
            is_udp_ready: true,
            is_tcp_ready: false,
            is_unix_ready: false,
            is_websocket_ready: false,
        })
    }

    fn listen_on_tcp<R: Net>(&mut self, rt: &R, endpoint: SocketAddr) -> io::Result<()> {
        let mut listener = TcpListener::bind(rt, endpoint)?;
        self.poll
            .registry()
            .register(&mut listener, Token(TCP), Interest::READABLE)?;
        self.tcp = Some(listener);
        self.is_tcp_ready = true;
        Ok(())
    }

    fn listen_on_websocket<R: Net>(&mut self, rt: &R, endpoint: SocketAddr) -> io::Result<()> {
        let mut listener = TcpListener::bind(rt, endpoint)?;
        self.poll
            .registry()
            .register(&mut listener, Token(WEBSOCKET), Interest::READABLE)?;
        self.websocket = Some(listener);
        self.is_websocket_ready = true;
        Ok(())
    }

    fn listen_on_unix<R: Files + Net>(&mut self, rt: &R, path: &str) -> io::Result<()> {
        let mut listener = unix_path::bind(rt, path)?;
        self.poll
            .registry()
            .register(&mut listener, Token(UNIX), Interest::READABLE)?;
        self.unix = Some(listener);
        self.is_unix_ready = true;
        Ok(())
    }

    /// Returns whether some of these sockets may have something. Connections are not asked.
    pub fn is_ready(&self) -> bool {
        self.is_udp_ready || self.is_tcp_ready || self.is_unix_ready || self.is_websocket_ready
    }

    /// Counts the sockets that are open as ready, so that each is asked once more.
    pub fn ask_all(&mut self) {
        self.is_udp_ready = true;
        self.is_tcp_ready = self.tcp.is_some();
        self.is_unix_ready = self.unix.is_some();
        self.is_websocket_ready = self.websocket.is_some();
    }

    /// Waits for at most `limit` until some socket has something, and counts the sockets and the
    /// connections that have something as ready.
    pub fn wait(
        &mut self,
        limit: Duration,
        faces: &mut [ConnectedFace],
        handshakes: &mut [Handshake],
    ) -> io::Result<()> {
        self.poll.poll(&mut self.events, Some(limit))?;
        for event in &self.events {
            match event.token().0 {
                UDP => self.is_udp_ready = true,
                TCP => self.is_tcp_ready = true,
                UNIX => self.is_unix_ready = true,
                WEBSOCKET => self.is_websocket_ready = true,
                token => {
                    let number = token.saturating_sub(FIRST_CONNECTION) as u64;
                    wake(faces, number);
                    handshakes::wake(handshakes, number);
                }
            }
        }
        Ok(())
    }

    /// Accepts a connection over TCP, if one waits, as the connection with this number. Returns
    /// `None` if no connection waits, or if the system cannot open one now.
    pub fn accept_tcp(&mut self, number: u64) -> Option<(Wire, Link)>
        ensures { IfSome result (λ found. IsOverTcp number found.1) }
    {
        if !self.is_tcp_ready {
            return None;
        }
        match self.tcp.as_ref()?.accept() {
            Ok((stream, remote)) => {
                // Small packets are to leave at once. Without this option they leave later.
                let _set = stream.set_nodelay(true);
                Some((Wire::Tcp(stream), Link::over_tcp(number, remote)))
            }
            Err(_) => {
                self.is_tcp_ready = false;
                None
            }
        }
    }

    /// Accepts a connection over the Unix socket, as `accept_tcp` does over TCP.
    pub fn accept_unix(&mut self, number: u64) -> Option<(Wire, Link)>
        ensures { IfSome result (λ found. found.1 ≡ Link.Connection number None true) }
    {
        if !self.is_unix_ready {
            return None;
        }
        match self.unix.as_ref()?.accept() {
            Ok((stream, _address)) => Some((Wire::Unix(stream), Link::over_unix(number))),
            Err(_) => {
                self.is_unix_ready = false;
                None
            }
        }
    }

    /// Accepts a connection for WebSocket, as `accept_tcp` does, and waits for it from now on.
    pub fn accept_websocket(&mut self, number: u64) -> Option<(TcpStream, Link)>
        ensures { IfSome result (λ found. IsOverWebSocket number found.1) }
    {
        if !self.is_websocket_ready {
            return None;
        }
        match self.websocket.as_ref()?.accept() {
            Ok((mut stream, remote)) => {
                let _set = stream.set_nodelay(true);
                self.register(&mut stream, number).ok()?;
                Some((stream, Link::over_websocket(number, remote)))
            }
            Err(_) => {
                self.is_websocket_ready = false;
                None
            }
        }
    }

    /// Waits for the connection with this number from now on. One over WebSocket is waited for
    /// since it was accepted.
    pub fn watch(&self, wire: &mut Wire, number: u64) -> io::Result<()> {
        match wire {
            Wire::Tcp(stream) => self.register(stream, number),
            Wire::Unix(stream) => self.register(stream, number),
            Wire::WebSocket(_) => Ok(()),
        }
    }

    fn register<S: Source>(&self, socket: &mut S, number: u64) -> io::Result<()> {
        let token = Token(FIRST_CONNECTION.saturating_add(number as usize));
        let both = Interest::READABLE | Interest::WRITABLE;
        self.poll.registry().register(socket, token, both)
    }
}
