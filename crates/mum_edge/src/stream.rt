//! A connected socket, over TCP or in the machine.

ghost use Rattle.std.specs.Io.{ReadsAtMost, WritesAtMost};

use mio::net::{TcpStream, UnixStream};
use mio::{Interest, Registry, Token};
use mum_link::Polls;
use std::io;
use std::io::{ErrorKind, Read, Write};
use std::net::Shutdown;
use std::os::fd::AsRawFd;

/// A connected socket whose calls do not wait.
#[derive(Drop)]
pub enum Stream {
    Tcp(TcpStream),
    Unix(UnixStream),
    /// That of a link that was shut: nothing comes over it.
    Left,
}

/// What all streams share.
pub type StreamPolls = Polls<Registry, Stream>;

impl Stream {
    pub fn read(&self, buf: &mut [u8]) -> io::Result<usize>
        ensures { ReadsAtMost result buf.new }
    {
        match self {
            Stream::Tcp(stream) => (&*stream).read(buf),
            Stream::Unix(stream) => (&*stream).read(buf),
            Stream::Left => Ok(0),
        }
    }

    pub fn write(&self, piece: &[u8]) -> io::Result<usize>
        ensures { WritesAtMost result piece.now }
    {
        match self {
            Stream::Tcp(stream) => (&*stream).write(piece),
            Stream::Unix(stream) => (&*stream).write(piece),
            Stream::Left => Err(io::Error::from(ErrorKind::NotConnected)),
        }
    }

    /// Has small pieces sent at once.
    pub fn set_no_delay(&self) -> io::Result<()> {
        match self {
            Stream::Tcp(stream) => stream.set_nodelay(true),
            Stream::Unix(_) | Stream::Left => Ok(()),
        }
    }

    /// Has the system keep little of what the peer has not read yet. It reports room in a Unix socket only once three
    /// quarters of what it keeps have been read: with the usual 208 kB a slow peer would seem to take nothing for long.
    pub fn keep_little(&self) {
        if let Stream::Unix(stream) = self {
            // as little as there is: the system raises a length of 0 to its least
            let least = [0u8; 16];
            let descriptor = stream.as_raw_fd();
            let (level, option) = (libc::net::SOL_SOCKET, libc::net::SO_SNDBUF);
            let _usual = unsafe { libc::net::setsockopt(descriptor, level, option, &least, 4) };
        }
    }

    /// Notifies the peer that no more comes.
    pub fn end_writing(&self) -> io::Result<()> {
        match self {
            Stream::Tcp(stream) => stream.shutdown(Shutdown::Write),
            Stream::Unix(stream) => stream.shutdown(Shutdown::Write),
            Stream::Left => Ok(()),
        }
    }

    pub fn register(&mut self, registry: &Registry, slot: usize) -> io::Result<()> {
        match self {
            Stream::Tcp(stream) => registry.register(stream, Token(slot), Interest::READABLE),
            Stream::Unix(stream) => registry.register(stream, Token(slot), Interest::READABLE),
            Stream::Left => Ok(()),
        }
    }

    /// Has room for bytes reported too.
    pub fn register_both(&mut self, registry: &Registry, slot: usize) -> io::Result<()> {
        let both = Interest::READABLE | Interest::WRITABLE;
        match self {
            Stream::Tcp(stream) => registry.reregister(stream, Token(slot), both),
            Stream::Unix(stream) => registry.reregister(stream, Token(slot), both),
            Stream::Left => Ok(()),
        }
    }

    pub fn deregister(&mut self, registry: &Registry) -> io::Result<()> {
        match self {
            Stream::Tcp(stream) => registry.deregister(stream),
            Stream::Unix(stream) => registry.deregister(stream),
            Stream::Left => Ok(()),
        }
    }
}
