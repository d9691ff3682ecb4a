//! A drive that comes to its end, as the law of how long the file of its output is speaks of it.
ghost use Rattle.std.specs.Prelude.{◌≡◌, ◌<◌, IfSome, true};
ghost use Rattle.ckrt_cli_reports.specs.Lengths.{fits, lengths_of};
ghost use Rattle.ckrt_stored.specs.Programs.{Program, RecoversToStart};
ghost use Rattle.ckrt_witness.specs.Lengths.{LengthWitness};

use ckrt_cli_reports::OutputLengths;
use ckrt_disk::Disk;
use ckrt_drive::{Drive, FromDisk, Nobody, Options};
use ckrt_recovery::{Session, recover};
use std::alloc::Global;

/// Whether a file of so many bytes may be the output of a session.
fn fits<D: Disk>(session: &Session<D>, length: u64) -> bool
    ensures { result ≡ fits (lengths_of length session.now) }
{
    let lengths = OutputLengths {
        length,
        confirmed: session.confirmed(),
        released: session.released(),
    };
    lengths.fits()
}

/// Whether a session has released more bytes than so many.
fn has_more<D: Disk>(session: &Session<D>, length: u64) -> bool
    ensures { result ≡ true → length < session.now.released }
{
    length < session.released()
}

/// Recovers a disk and drives it to its end, with an input, and an output whose file has so many bytes. Of a formatted disk that is honest in
/// the end that meets all premises of the law. The session then; None where the disk doesn't recover, that length doesn't
/// fit it, or the drive comes to no end, or prints nothing.
pub fn drive_to_end<D: Disk + Drop, O: Disk + Drop>(
    alloc: Global,
    disk: D,
    output: O,
    length: u64,
    input: D,
    options: Options,
) -> Option<Session<D>>
    ensures { IfSome result (λ after. D.is_honest after.disk → (p : Program)
        → RecoversToStart p (D.content disk) → LengthWitness D.Disk O.Disk length) }
{
    let Ok(session) = recover(alloc, disk) else {
        return None;
    };
    if !fits(&session, length) {
        return None;
    }
    let mut drive = Drive::with_feed(session, output, options, FromDisk::new(input), 0);
    let Ok(Some(_ending)) = drive.run(u64::MAX, &mut Nobody) else {
        return None;
    };
    let (session, _output, _feed) = drive.into_parts();
    if !has_more(&session, length) {
        return None;
    }
    Some(session)
}
