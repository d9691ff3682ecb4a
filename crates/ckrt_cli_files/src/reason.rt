//! Why an output failed.
use std::io::ErrorKind;

/// Why a write or a sync of an output failed.
#[derive(Clone, Copy, Debug, PartialEq, Eq)]
pub enum OutputReason {
    /// The device has no space left.
    StorageFull,
    /// The user's quota is used up.
    QuotaExceeded,
    /// The file may not become so long.
    FileTooLarge,
    /// The file system may only be read.
    ReadOnly,
    /// Nobody reads the pipe any more.
    BrokenPipe,
    /// It takes no more at once, and isn't waited for.
    WouldBlock,
    /// It went well when it was tried once more.
    Passing,
    /// Anything else, as where the device fails.
    Other,
}

impl OutputReason {
    /// The reason that the system's kind of error is.
    pub(crate) fn of(kind: ErrorKind) -> OutputReason {
        match kind {
            ErrorKind::StorageFull => OutputReason::StorageFull,
            ErrorKind::QuotaExceeded => OutputReason::QuotaExceeded,
            ErrorKind::FileTooLarge => OutputReason::FileTooLarge,
            ErrorKind::ReadOnlyFilesystem => OutputReason::ReadOnly,
            ErrorKind::BrokenPipe => OutputReason::BrokenPipe,
            ErrorKind::WouldBlock => OutputReason::WouldBlock,
            _ => OutputReason::Other,
        }
    }

    /// The reason in plain words, and what to do about it.
    pub fn text(self) -> &'static str {
        match self {
            OutputReason::StorageFull => {
                "no space is left for it; make some, then the same command goes on (docs/OPERATING.md)"
            }
            OutputReason::QuotaExceeded => {
                "the disk quota is used up; make some space, then the same command goes on (docs/OPERATING.md)"
            }
            OutputReason::FileTooLarge => {
                "the file may not become so long; raise that limit (`ulimit -f`), then the same command goes on (docs/OPERATING.md)"
            }
            OutputReason::ReadOnly => {
                "its file system is read-only; make it writable, then the same command goes on (docs/OPERATING.md)"
            }
            OutputReason::BrokenPipe => {
                "the pipe is broken, as nothing reads it any more; the same command goes on, with --from and the number of bytes that you have (docs/OPERATING.md)"
            }
            OutputReason::WouldBlock => {
                "it takes no more at once, and is set not to wait (O_NONBLOCK); give it as `| cat`, then the same command goes on (docs/OPERATING.md)"
            }
            OutputReason::Passing => {
                "a write or sync failed, and not when it was tried again; the same command goes on (docs/OPERATING.md)"
            }
            OutputReason::Other => {
                "a write or sync failed, as where its device does; look after that, then the same command goes on (docs/OPERATING.md)"
            }
        }
    }
}
