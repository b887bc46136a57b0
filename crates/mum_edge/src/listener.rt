//! A listening socket, over TCP or in the machine.

use crate::peer::Peer;
use crate::socket_file;
use crate::stream::{Stream, StreamPolls};
use mio::net::{TcpListener, UnixListener};
use mio::{Interest, Registry, Token};
use mum_address::{Address, Place, ipv6_of, own_address, socket_path};
use mum_link::{DOOR_THREAD, Life, Listener, SLOT_LIMIT};
use std::fs::Files;
use std::io::{Eprint, ErrorKind};
use std::net::{Ipv6Addr, Net, SocketAddr};
use std::os::fd::AsRawFd;
use std::sync::Arc;
use std::{fs, io};

/// The token of the socket at which somebody connects who wants the server to stop, after those of the slots.
pub const STOP: usize = SLOT_LIMIT;

// The most connections that wait for an accept.
const BACKLOG: i32 = 1024;

// A listening socket whose accept does not wait.
#[derive(Drop)]
enum Bound {
    Tcp(TcpListener),
    Unix(UnixListener),
}

impl Bound {
    fn at<R: Net + Files>(rt: &R, place: Place<'_>) -> io::Result<Bound> {
        let bound = match place {
            Place::Port(address) => Bound::Tcp(TcpListener::bind(rt, address)?),
            Place::Path(path) => Bound::Unix(socket_file::bind(rt, path)?),
        };
        let descriptor = match &bound {
            Bound::Tcp(listener) => listener.as_raw_fd(),
            Bound::Unix(listener) => listener.as_raw_fd(),
        };
        // it listens already, with the longest backlog that the system allows
        let _longest = libc::net::listen(descriptor, BACKLOG);
        Ok(bound)
    }

    fn register(&mut self, registry: &Registry, token: usize) -> io::Result<()> {
        match self {
            Bound::Tcp(listener) => registry.register(listener, Token(token), Interest::READABLE),
            Bound::Unix(listener) => registry.register(listener, Token(token), Interest::READABLE),
        }
    }

    // The next connection, with the address of its peer. One in the machine has none, which is the unspecified one.
    fn accept(&self) -> io::Result<(Stream, Ipv6Addr)> {
        match self {
            Bound::Tcp(listener) => {
                let (stream, peer) = listener.accept()?;
                Ok((Stream::Tcp(stream), ipv6_of(peer)))
            }
            Bound::Unix(listener) => {
                let (stream, _unnamed) = listener.accept()?;
                Ok((Stream::Unix(stream), Ipv6Addr::UNSPECIFIED))
            }
        }
    }
}

/// What a door listens at, if it was opened, and the polls of the crew's threads, or why there are none. Who connects
/// where the text `stop_at` says wants the server to stop.
#[derive(Drop)]
pub struct SocketListener<X> {
    rt: X,
    bound: Option<Bound>,
    polls: Arc<StreamPolls>,
    fault: Option<i32>,
    life: Life<X>,
    stop_at: Option<String>,
    stop: Option<UnixListener>,
    // How many connections came.
    came: u64,
    // Whether the system keeps little of what a peer has not read yet.
    keeps_little: bool,
}

impl<X: Net + Files + Eprint> SocketListener<X> {
    // It listens nowhere yet. Whose links are to fail where a peer takes nothing has the system keep little for each of
    // them, so as to be notified soon of what the peer took.
    pub(crate) fn new(
        rt: X,
        polls: Arc<StreamPolls>,
        fault: Option<i32>,
        life: Life<X>,
        stop_at: Option<String>,
        keeps_little: bool,
    ) -> SocketListener<X> {
        SocketListener {
            rt,
            bound: None,
            polls,
            fault,
            life,
            stop_at,
            stop: None,
            came: 0,
            keeps_little,
        }
    }

    fn registry(&self, thread: usize) -> io::Result<&Registry> {
        if let Some(code) = self.fault {
            return Err(io::Error::from_raw_os_error(code));
        }
        match self.polls.registry(thread) {
            Some(registry) => Ok(registry),
            None => Err(io::Error::from(ErrorKind::NotFound)),
        }
    }

    fn bind(&self, place: Place<'_>, thread: usize, slot: usize) -> io::Result<Bound> {
        let registry = self.registry(thread)?;
        let mut bound = Bound::at(&self.rt, place)?;
        bound.register(registry, slot)?;
        Ok(bound)
    }

    fn bind_for_stops(&self, path: &str) -> io::Result<UnixListener> {
        let registry = self.registry(DOOR_THREAD)?;
        let mut listener = socket_file::bind(&self.rt, path)?;
        registry.register(&mut listener, Token(STOP), Interest::READABLE)?;
        Ok(listener)
    }

    // What listens at the address of this text, if it does. If it cannot, a line on standard error says why.
    fn listening<T: Drop>(&self, text: &str, bound: io::Result<T>) -> Option<T> {
        if let Err(error) = &bound {
            self.life.cannot_listen(text, error);
        }
        bound.ok()
    }

    // Listens for who wants the server to stop, where that is asked for. If it cannot, a line on standard error says why.
    fn listen_for_stops(&self) -> Option<Option<UnixListener>> {
        let Some(text) = &self.stop_at else {
            return Some(None);
        };
        let Some(path) = socket_path(text.as_str()) else {
            self.life.is_no_socket(text.as_str());
            return None;
        };
        let stop = self.listening(text.as_str(), self.bind_for_stops(path))?;
        Some(Some(stop))
    }

    /// Removes the file of the socket for a stop, if it was made.
    pub fn close(&self) {
        if let (Some(_), Some(text)) = (&self.stop, &self.stop_at) {
            if let Some(path) = socket_path(text.as_str()) {
                let _gone_already = fs::remove_file(&self.rt, path);
            }
        }
    }

    /// The address of the Internet at which it listens, with the port that the system chose where it was 0.
    pub fn local_address(&self) -> Option<SocketAddr> {
        match self.bound.as_ref()? {
            Bound::Tcp(listener) => listener.local_addr().ok(),
            Bound::Unix(_) => None,
        }
    }
}

impl<X: Net + Files + Eprint + Copy> Listener for SocketListener<X> {
    type Socket = Peer<X>;

    // If it cannot, a line on standard error says why.
    fn listen(&mut self, text: &str, thread: usize, slot: usize) -> Option<bool> {
        let Some(address) = Address::from_text(text) else {
            self.life.is_no_address(text);
            return None;
        };
        let stop = self.listen_for_stops()?;
        self.stop = stop;
        let bound = self.listening(text, self.bind(address.place, thread, slot))?;
        self.bound = Some(bound);
        let port = self.local_address().map(|address| address.port());
        self.life.listens(text, port);
        if !address.has_headers {
            self.life.bans_go_by_connections(text);
        }
        Some(address.has_headers)
    }

    // A peer that has no address to itself is given one for this connection.
    fn accept(&mut self) -> io::Result<(Peer<X>, Ipv6Addr)> {
        let Some(bound) = &self.bound else {
            return Err(io::Error::from(ErrorKind::NotConnected));
        };
        let (stream, from) = bound.accept()?;
        if self.keeps_little {
            stream.keep_little();
        }
        self.came = self.came.saturating_add(1);
        let address = own_address(from, self.came);
        let polls = self.polls.clone()?;
        let peer = Peer::new(stream, from, address, polls, self.life);
        Ok((peer, address))
    }

    fn watch(&mut self, socket: &mut Peer<X>, thread: usize, slot: usize) -> io::Result<()> {
        socket.watch(thread, slot)
    }

    fn begin(
        &mut self,
        socket: &mut Peer<X>,
        connection: u64,
        milliseconds: u64,
        client: Option<Ipv6Addr>,
    ) -> io::Result<()> {
        socket.stream.set_no_delay()?;
        socket.connection = connection;
        socket.opened = milliseconds;
        match client {
            Some(address) => self.life.came(connection, socket.reported(address)),
            None => socket.life = self.life.silent(),
        }
        Ok(())
    }

    fn cannot_accept(&mut self, error: &io::Error) {
        self.life.cannot_accept(error);
    }

    fn refuse(&mut self, refused: u64) {
        self.life.has_no_header(refused);
    }
}
