//! What goes to another thread. The call does nothing: it is proved only where its value may cross.

use crate::door::SocketDoor;
use crate::socket::Socket;

fn crosses<T: Send>(value: T) -> T {
    value
}

pub fn door_crosses<L: Send, S: Socket + Send>(door: SocketDoor<L, S>) -> SocketDoor<L, S> {
    crosses(door)
}
