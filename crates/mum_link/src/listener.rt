//! A listening socket, as an entrance uses it.

ghost use Rattle.std.specs.Prelude.{◌≡◌, IfOk, OnOk, Some, []};
ghost use Rattle.std.specs.Io.KnownBytes.{Keeps};
ghost use Rattle.std.specs.Net.Addr.{ipv6_octets};
ghost use Rattle.std.specs.Option.{ForSome};
ghost use Rattle.mum_address.specs.Address.{SaysHeaders};
ghost use Rattle.mum_link.specs.Origins.{HasRead};

use crate::socket::Socket;
use std::io;
use std::net::Ipv6Addr;

/// A listening socket, and the polls of the threads on which its connections are. No call waits.
pub trait Listener: Drop {
    type Socket: Socket;

    /// Listens at this address, and has what has come reported on this thread for this slot. Whether each connection begins
    /// with the header of a relay, which is what the address says. None: it cannot listen there.
    fn listen(&mut self, address: &str, thread: usize, slot: usize) -> Option<bool>
        ensures { ForSome result (SaysHeaders address.now) };

    /// The next connection, with the address of its peer. An error of the kind `WouldBlock`: none has come yet.
    fn accept(&mut self) -> io::Result<(Self::Socket, Ipv6Addr)>
        ensures { IfOk result (λ accepted. HasRead (Self.Socket.origin accepted.0) (Self.Socket.left accepted.0) []
            (ipv6_octets accepted.1)) };

    /// Has what a connection is ready for reported on this thread, for this slot, and no longer where it was before.
    fn watch(&mut self, socket: &mut Self::Socket, thread: usize, slot: usize) -> io::Result<()>
        ensures left { Keeps (Self.Socket.left socket.old) (Self.Socket.left socket.new) }
        ensures written { Keeps (Self.Socket.written socket.old) (Self.Socket.written socket.new) }
        ensures origin { Self.Socket.origin socket.new ≡ Self.Socket.origin socket.old }
        ensures watched { OnOk result (Self.Socket.watched socket.new ≡ Some thread) };

    /// The connection of this number begins, at this time in milliseconds. It is that of a client at this address, or of
    /// a relay for itself.
    fn begin(
        &mut self,
        socket: &mut Self::Socket,
        connection: u64,
        milliseconds: u64,
        client: Option<Ipv6Addr>,
    ) -> io::Result<()>
        ensures left { Keeps (Self.Socket.left socket.old) (Self.Socket.left socket.new) }
        ensures written { Keeps (Self.Socket.written socket.old) (Self.Socket.written socket.new) }
        ensures origin { Self.Socket.origin socket.new ≡ Self.Socket.origin socket.old }
        ensures watched { Self.Socket.watched socket.new ≡ Self.Socket.watched socket.old };

    /// An accept failed by this error, which is not one of those in a row after another. It is tried again.
    fn cannot_accept(&mut self, error: &io::Error);

    /// This many connections began without a header until now; the last of them was closed.
    fn refuse(&mut self, refused: u64);
}
