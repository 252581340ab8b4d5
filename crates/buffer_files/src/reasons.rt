//! Why a file can't be had, by the system's error.
ghost use Rattle.std.specs.Prelude.{◌≡◌};
ghost use Rattle.buffer_files.specs.Reasons as terms;

use file_blocks::Unusable;
use relay_report::Reason;
use std::io::ErrorKind;

/// Why a file can't be used; none where memory was refused.
pub fn reason_of(unusable: &Unusable) -> Option<Reason>
    ensures { result ≡ terms.reason_of unusable.now }
{
    match unusable {
        Unusable::NotRegular => Some(Reason::NotRegular),
        Unusable::Locked => Some(Reason::Held),
        Unusable::TooSmall => Some(Reason::TooSmall),
        Unusable::Unwritten => Some(Reason::Unwritten),
        Unusable::Refused(error) => file_reason(error.kind()),
    }
}

/// Why the system refused a file; none where memory was refused.
fn file_reason(kind: ErrorKind) -> Option<Reason>
    ensures { result ≡ terms.file_reason kind }
{
    match kind {
        ErrorKind::OutOfMemory => None,
        ErrorKind::NotFound | ErrorKind::NotADirectory => Some(Reason::NoFolder),
        ErrorKind::PermissionDenied | ErrorKind::ReadOnlyFilesystem => Some(Reason::NoRight),
        ErrorKind::IsADirectory => Some(Reason::NotRegular),
        ErrorKind::StorageFull | ErrorKind::QuotaExceeded => Some(Reason::NoRoom),
        ErrorKind::FileTooLarge => Some(Reason::TooLarge),
        _ => Some(Reason::Refused),
    }
}
