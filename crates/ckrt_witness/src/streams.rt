//! Services whose reader or writer fails, as the clauses of a service speak of them.
ghost use Rattle.std.specs.Prelude.{◌≡◌, ◌<◌, [], Some, IfSome, true};
ghost use Rattle.ckrt_disk.specs.Disk.{HasFailed};
ghost use Rattle.ckrt_stored.specs.Programs.{Program, RecoversToStart};
ghost use Rattle.ckrt_witness.specs.Streams.{BrokenService};

use crate::service::are_some;
use ckrt_disk::Disk;
use ckrt_main::{ServeFault, serve};
use ckrt_recovery::{Session, recover};
use std::alloc::Global;
use std::io::{self, ErrorKind, Read, Write};

/// Gives bytes, and fails behind them.
#[derive(Drop)]
pub struct Cut<'a> {
    bytes: &'a [u8],
}

impl<'a> Cut<'a> {
    /// These bytes.
    pub fn new(bytes: &'a [u8]) -> Cut<'a>
        ensures { result.bytes.now ≡ bytes.now }
    {
        Cut { bytes }
    }
}

impl<'a> Read for Cut<'a> {
    ghost remaining = { λ s. Some s.bytes.now };

    fn read(&mut self, buf: &mut [u8]) -> io::Result<usize> {
        if self.bytes.is_empty() {
            return Err(io::Error::from(ErrorKind::BrokenPipe));
        }
        self.bytes.read(buf)
    }
}

/// Takes so many bytes, and fails behind them.
#[derive(Drop)]
pub struct Narrow {
    bytes: Vec<u8>,
    room: usize,
}

impl Narrow {
    /// With room for so many.
    pub fn new(alloc: Global, room: usize) -> Narrow
        ensures { result.bytes.items ≡ [] }
    {
        Narrow {
            bytes: Vec::new(alloc),
            room,
        }
    }

    /// What it has taken.
    pub fn as_slice(&self) -> &[u8]
        ensures { result.now ≡ self.now.bytes.items }
    {
        self.bytes.as_slice()
    }
}

impl Write for Narrow {
    ghost contents = { λ s. Some s.bytes.items };

    fn write(&mut self, buf: &[u8]) -> io::Result<usize> {
        let size = buf.len().min(self.room);
        if size < buf.len() {
            return Err(io::Error::from(ErrorKind::BrokenPipe));
        }
        self.room -= size;
        self.bytes.write(buf)
    }

    fn flush(&mut self) -> io::Result<()> {
        Ok(())
    }
}

/// Whether a session has acknowledged more events than so many.
fn has_more<D: Disk>(session: &Session<D>, acknowledged: u64) -> bool
    ensures { result ≡ true → acknowledged < session.now.acknowledged }
{
    acknowledged < session.acknowledged()
}

/// Recovers a disk, and answers lines of a reader by a writer with so much room, until one of them fails. Of a formatted disk that is honest in the
/// end, and that failed no call, that meets the premises of the clauses on this fault. None where the disk doesn't recover, the
/// service comes to its end, or nothing is acknowledged or written.
pub fn serve_broken<D: Disk + Drop>(
    alloc: Global,
    disk: D,
    lines: &[u8],
    room: usize,
) -> Option<(Session<D>, ServeFault)>
    ensures { IfSome result (λ it.
        D.is_honest it.0.disk → ¬ HasFailed (D.failures disk) (D.failures it.0.disk)
        → (p : Program) → RecoversToStart p (D.content disk) → BrokenService D.Disk p it.1) }
{
    let Ok(mut session) = recover(alloc, disk) else {
        return None;
    };
    let acknowledged = session.acknowledged();
    let mut reader = Cut::new(lines);
    let mut writer = Narrow::new(alloc, room);
    let Err(fault) = serve(&mut reader, &mut writer, &mut session) else {
        return None;
    };
    if !are_some(lines, writer.as_slice()) {
        return None;
    }
    if !has_more(&session, acknowledged) {
        return None;
    }
    Some((session, fault))
}
