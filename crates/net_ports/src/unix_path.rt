//! The file of a Unix socket.
use mio::net::{UnixListener, UnixStream};
use std::fs::Permissions;
use std::io::ErrorKind;
use std::net::Net;
use std::os::unix::fs::{FileTypeExt, PermissionsExt};
use std::rt::Files;
use std::{fs, io};

/// The permissions of the file of a Unix socket: only its owner can connect.
const MODE: u32 = 0o600;

/// Listens on a Unix socket with this path. If the path is that of a socket on which no program
/// listens, as after a crash, the file is removed first. Fails, and leaves the file as it is, if a
/// program listens on the socket, or if the path is that of another file.
pub fn bind<R: Files + Net>(rt: &R, path: &str) -> io::Result<UnixListener> {
    let listener = match UnixListener::bind(rt, path) {
        Err(error) if error.kind() == ErrorKind::AddrInUse && is_left_behind(rt, path)? => {
            fs::remove_file(rt, path)?;
            UnixListener::bind(rt, path)?
        }
        bound => bound?,
    };
    fs::set_permissions(rt, path, Permissions::from_mode(MODE))?;
    Ok(listener)
}

/// Returns whether the file is a socket on which no program listens. A program that has no room for
/// one more connection listens.
fn is_left_behind<R: Files + Net>(rt: &R, path: &str) -> io::Result<bool> {
    if !fs::symlink_metadata(rt, path)?.file_type().is_socket() {
        return Ok(false);
    }
    match UnixStream::connect(rt, path) {
        Err(error) => Ok(error.kind() == ErrorKind::ConnectionRefused),
        Ok(_stream) => Ok(false),
    }
}
