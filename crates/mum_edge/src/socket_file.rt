//! The files of sockets in the machine.

use mio::net::UnixListener;
use os::FromRawFd;
use std::fs::Files;
use std::io::ErrorKind;
use std::net::Net;
use std::os::fd::{AsRawFd, OwnedFd};
use std::os::unix::fs::FileTypeExt;
use std::{fs, io};

// The most bytes of a path in the address of a socket.
const SOCKET_PATH_LIMIT: usize = 107;

// Listens at a path. The file of a server that has ended is removed first; that of one that runs is not.
pub(crate) fn bind<R: Net + Files>(rt: &R, path: &str) -> io::Result<UnixListener> {
    match UnixListener::bind(rt, path) {
        Err(error) if error.kind() == ErrorKind::AddrInUse && is_left_over(rt, path) => {
            fs::remove_file(rt, path)?;
            UnixListener::bind(rt, path)
        }
        other => other,
    }
}

// Whether the file is a socket that nobody has open.
fn is_left_over<R: Files>(rt: &R, path: &str) -> bool {
    match fs::symlink_metadata(rt, path) {
        Ok(metadata) => metadata.file_type().is_socket() && is_abandoned(path),
        Err(_) => false,
    }
}

// Whether nobody has the socket at this path open. A socket for datagrams asks, which no listener lets in: whoever
// listens there does not notice.
fn is_abandoned(path: &str) -> bool {
    let name = path.as_bytes();
    if name.len() > SOCKET_PATH_LIMIT {
        return false;
    }
    let mut address = [0u8; libc::net::_SS_SIZE];
    address[..2].copy_from_slice(&(libc::net::AF_UNIX as u16).to_ne_bytes());
    address[2..2 + name.len()].copy_from_slice(name);
    let kind = libc::net::SOCK_DGRAM | libc::net::SOCK_CLOEXEC;
    let descriptor = unsafe { libc::net::socket(libc::net::AF_UNIX, kind, 0) };
    if descriptor < 0 {
        return false;
    }
    let asking = unsafe { OwnedFd::from_raw_fd(descriptor) };
    let status = unsafe { libc::net::connect(asking.as_raw_fd(), &address, name.len() as u32 + 3) };
    status != 0 && os::errno() == libc::ECONNREFUSED
}
