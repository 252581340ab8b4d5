//! The place of a relay's socket in its folder.
ghost use Rattle.std.specs.Prelude.{◌≡◌, ◌↔◌, IsTrue};
ghost use Rattle.std.specs.IoError.{error_kind};
ghost use Rattle.std.specs.declared.io.ErrorKind.TheVariants as kinds;

use crate::control::Control;
use std::alloc::{AllocError, Global};
use std::fs::{Files, Permissions};
use std::io;
use std::io::ErrorKind;
use std::net::Net;
use std::os::unix::fs::{FileTypeExt, MetadataExt, PermissionsExt};
use std::os::unix::net::{UnixListener, UnixStream};
use std::path::{Path, PathBuf};

/// The name of the socket in its folder.
pub(crate) const NAME: &str = "control";

/// Its name there, with that folder's.
const THERE: &str = "control.new/s";

/// Who may ask: the owner alone, who reads and writes.
const MODE: u32 = 0o600;

/// Who may enter the folder in which it is made: the owner alone.
const ROOM_MODE: u32 = 0o700;

/// Which file it is, whatever its names: the number of its device, and that of its inode there.
#[derive(Clone, Copy)]
pub(crate) struct Identity {
    device: u64,
    inode: u64,
}

/// A socket that listens in the folder, which the owner alone may connect to, at no moment anybody
/// else. A socket that another relay left there is taken away; where another relay listens, or what
/// stands there is no socket, the socket can't be had.
pub(crate) fn listen_in<R: Files + Net>(
    rt: &R,
    alloc: Global,
    folder: &str,
) -> io::Result<Control> {
    let path = path_in(alloc, folder, NAME)?;
    let made_at = path_in(alloc, folder, THERE)?;
    let there = made_at.as_str();
    clear(rt, path.as_str())?;
    leave_room(rt, there);
    let made = listen_at(rt, there, path.as_str());
    leave_room(rt, there);
    made
}

/// The path of what has this name in the folder.
pub(crate) fn path_in(alloc: Global, folder: &str, name: &str) -> Result<PathBuf, AllocError> {
    Path::new(folder).join(alloc, name)
}

/// The folder of a path, no folder where it has none.
fn folder_of(path: &str) -> &str {
    match Path::new(path).parent() {
        Some(folder) => folder.as_str(),
        None => "",
    }
}

/// Takes away a socket at which nobody listens; one at which somebody does is the error. Anything
/// else that stands there stays, and is the error when the new one is given its name.
fn clear<R: Files + Net>(rt: &R, path: &str) -> io::Result<()> {
    if identity_at(rt, path).is_none() {
        return Ok(());
    }
    match UnixStream::connect(rt, path) {
        Ok(_living) => Err(io::Error::from(ErrorKind::AddrInUse)),
        Err(error) => {
            if is_left(&error) {
                rt.remove_file(path)
            } else {
                Err(error)
            }
        }
    }
}

/// Whether nobody listens at a socket with which no connection could be made. Where that has
/// another cause, as that it is another user's, a relay may.
fn is_left(error: &io::Error) -> bool
    ensures { IsTrue result ↔ (error_kind error.now ≡ kinds.ConnectionRefused) }
{
    matches!(error.kind(), ErrorKind::ConnectionRefused)
}

/// Makes the socket in a folder of the owner alone, and gives it its name in the relay's folder
/// once its rights stand, where nothing has that name.
fn listen_at<R: Files + Net>(rt: &R, there: &str, path: &str) -> io::Result<Control> {
    rt.create_dir_with_mode(folder_of(there), ROOM_MODE)?;
    let listener = UnixListener::bind(rt, there)?;
    rt.set_permissions(there, Permissions::from_mode(MODE))?;
    rt.hard_link(there, path)?;
    match identity_at(rt, path) {
        Some(identity) => Ok(Control::over(listener, identity)),
        None => Err(io::Error::from(ErrorKind::NotFound)),
    }
}

/// Takes away the folder in which the socket was made, where that is empty but for it.
fn leave_room<R: Files>(rt: &R, there: &str) {
    if identity_at(rt, there).is_some() {
        let _left = rt.remove_file(there);
    }
    let _left = rt.remove_dir(folder_of(there));
}

/// Which socket stands at the path, none where none does.
fn identity_at<R: Files>(rt: &R, path: &str) -> Option<Identity> {
    match rt.symlink_metadata(path) {
        Ok(found) => {
            if found.file_type().is_socket() {
                Some(Identity {
                    device: found.dev(),
                    inode: found.ino(),
                })
            } else {
                None
            }
        }
        Err(_) => None,
    }
}

/// Takes the socket of the folder away, where it is this one.
pub(crate) fn take_away<R: Files>(
    rt: &R,
    alloc: Global,
    folder: &str,
    identity: Identity,
) -> io::Result<()> {
    let path = path_in(alloc, folder, NAME)?;
    match identity_at(rt, path.as_str()) {
        Some(found) => {
            if found.device == identity.device && found.inode == identity.inode {
                rt.remove_file(path.as_str())
            } else {
                Ok(())
            }
        }
        None => Ok(()),
    }
}
