//! The service of a new machine in memory.
ghost use Rattle.std.specs.Prelude.{◌≡◌, ◌↔◌, ◌⊎◌, true, false, replicate, Ok, IfOk, IfErr, OnOk, IsErrOf};
ghost use Rattle.ckrt_stored.specs.Layout.{is_valid, size_needed};
ghost use Rattle.ckrt_stored.specs.Format.{IsFormatted};
ghost use Rattle.ckrt_recovery.specs.View.{view_of, fresh, is_refused};
ghost use Rattle.ckrt_main.specs.Service.{IsStartFault, Served, ServedPart};

use crate::fault::ServeFault;
use crate::service::serve;
use ckrt_disk::{Disk, MemoryDisk};
use ckrt_recovery::{Config, FormatFault, RecoverFault, Session, format, recover};
use std::alloc::{AllocError, Global};
use std::io::{Read, Write};

impl From<AllocError> for ServeFault {
    ghost use Rattle.ckrt_main.specs.declared.fault.ServeFault.TheVariants.{OutOfMemory};

    ghost from_gives = { λ _ e. e ≡ OutOfMemory };

    fn from(_: AllocError) -> ServeFault {
        ServeFault::OutOfMemory
    }
}

/// A disk of zeros that has as many bytes as the configuration needs.
fn blank_disk(alloc: Global, config: &Config) -> Result<MemoryDisk, AllocError>
    requires { is_valid config.now ≡ true }
    ensures content { IfOk result
        (λ disk. ⟦<MemoryDisk as Disk>⟧.content disk ≡ replicate (size_needed config.now) 0) }
{
    let bytes = vec![in alloc; 0; config.size_needed()]?;
    MemoryDisk::new(alloc, bytes)
}

/// Formats a blank disk of the size that the configuration needs.
fn formatted_disk(alloc: Global, image: &[u8], config: Config) -> Result<MemoryDisk, ServeFault>
    ensures formatted { IfOk result
        (λ disk. IsFormatted config image.now (⟦<MemoryDisk as Disk>⟧.content disk)) }
    ensures refused { IsErrOf result ServeFault.Format ↔ (is_refused config image.now ≡ true) }
    ensures errors { IfErr result (λ e. (e ≡ ServeFault.Format) ⊎ (e ≡ ServeFault.OutOfMemory)) }
{
    if !config.is_valid() || image.len() > config.memory_size() {
        return Err(ServeFault::Format);
    }
    let mut disk = blank_disk(alloc, &config)?;
    match format(alloc, &mut disk, config, image) {
        Ok(()) => Ok(disk),
        Err(FormatFault::OutOfMemory) => Err(ServeFault::OutOfMemory),
        Err(_) => unreachable!(),
    }
}

/// A session of which nothing has happened, over a new disk in memory.
fn fresh_session(
    alloc: Global,
    image: &[u8],
    config: Config,
) -> Result<Session<MemoryDisk>, ServeFault>
    ensures fresh { IfOk result (λ s. view_of s ≡ fresh config image.now) }
    ensures running { IfOk result (λ s. s.failed ≡ false) }
    ensures refused { IsErrOf result ServeFault.Format ↔ (is_refused config image.now ≡ true) }
    ensures errors { IfErr result (λ e. (e ≡ ServeFault.Format) ⊎ (e ≡ ServeFault.OutOfMemory)) }
{
    let disk = formatted_disk(alloc, image, config)?;
    match recover(alloc, disk) {
        Ok(session) => Ok(session),
        Err(unrecovered) => match unrecovered.fault {
            RecoverFault::OutOfMemory => Err(ServeFault::OutOfMemory),
            _ => unreachable!(),
        },
    }
}

/// Runs an image on a new machine, and answers the lines of a reader, up to its end or a line `quit`.
///
/// Formats a disk in memory of the size that the configuration needs, recovers it, and serves. Takes all memory before it
/// reads or writes.
pub fn serve_image<R: Read, W: Write>(
    alloc: Global,
    image: &[u8],
    config: Config,
    reader: &mut R,
    writer: &mut W,
) -> Result<(), ServeFault>
    ensures ok { OnOk result (Served (W.contents writer.old) (W.contents writer.new)
        (R.remaining reader.old) (R.remaining reader.new) (fresh config image.now)) }
    ensures processed { ServedPart (W.contents writer.old) (W.contents writer.new)
        (R.remaining reader.old) (R.remaining reader.new) (fresh config image.now) }
    ensures format { IsErrOf result ServeFault.Format ↔ (is_refused config image.now ≡ true) }
    ensures unread { IfErr result (λ e. IsStartFault e → reader.new ≡ reader.old) }
    ensures unwritten { IfErr result (λ e. IsStartFault e → writer.new ≡ writer.old) }
{
    let mut session = fresh_session(alloc, image, config)?;
    serve(reader, writer, &mut session)
}
