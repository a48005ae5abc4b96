//! What stands under a path, before it is opened.
use std::fs::{self, FileType, Metadata};
use std::io::{self, ErrorKind};
use std::os::unix::fs::{FileTypeExt, MetadataExt};
use std::rt::Files as HostFiles;

// The number of the device `/dev/null`.
const NULL_DEVICE: u64 = 0x103;

/// What stands under a path.
#[derive(Clone, Copy, Debug, PartialEq, Eq)]
pub enum Standing {
    /// A regular file, of so many bytes.
    File(u64),
    /// A directory.
    Directory,
    /// The device that keeps nothing.
    Null,
    /// A pipe, a socket or a device, whose bytes may have to be waited for.
    Other,
}

/// What stands under a path, behind its links.
pub fn stands_at<R: HostFiles>(rt: &R, path: &str) -> io::Result<Standing> {
    let found = fs::metadata(rt, path)?;
    Ok(kind_of(&found))
}

/// What has these properties.
pub fn kind_of(found: &Metadata) -> Standing {
    if found.is_file() {
        Standing::File(found.len())
    } else if found.is_dir() {
        Standing::Directory
    } else if is_null(found) {
        Standing::Null
    } else {
        Standing::Other
    }
}

fn is_null(found: &Metadata) -> bool {
    found.file_type().is_char_device() && found.rdev() == NULL_DEVICE
}

/// Whether an error tells that nothing can stand under the path: nothing does, a name in it is no directory's, or it is too long for the
/// system.
pub fn is_absent(kind: ErrorKind) -> bool {
    match kind {
        ErrorKind::NotFound | ErrorKind::NotADirectory | ErrorKind::InvalidFilename => true,
        _ => false,
    }
}
