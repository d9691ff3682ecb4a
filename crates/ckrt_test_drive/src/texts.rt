//! Each text that the program says of a fault: the file with its path, what is wrong and what to do, and the line with the fault's name. And
//! which reason of a failed output each error of the system is.

use crate::expect::expect_eq_at;
use ckrt_cli_files::{FileFault, JobFile, OutputReason, ToldWriter};
use ckrt_cli_reports::{JobFault, WrittenReport, report};
use ckrt_cli_words::read_words;
use ckrt_drive::DriveFault;
use ckrt_history::HistoryFault;
use ckrt_inspect::InspectFault;
use ckrt_main::ServeFault;
use ckrt_recovery::{FormatFault, RecoverFault, SubmitFault};
use std::cell::Cell;
use std::io::{self, ErrorKind, Write};
use std::process::Abort;

/// Words, a fault of the job that they name, and all that is said of it.
pub(crate) type Told = (&'static str, JobFault, &'static str);

/// What is said of a fault of the job of these words.
fn said<R: Abort + AllocGlobal>(rt: &R, words: &str, fault: JobFault) -> String {
    let words: Vec<&str> = words
        .split_whitespace()
        .collect(rt.alloc())
        .expect(rt, "memory for words");
    let Ok(job) = read_words(rt.alloc(), words.as_slice()) else {
        panic!(rt; "words that name no job");
    };
    let mut reporter = WrittenReport::new(Vec::new(rt.alloc()));
    let status = report(&mut reporter, &job, Err(fault));
    expect_eq_at(rt, "its status", status, 1);
    String::from_utf8(reporter.into_writer()).expect(rt, "text")
}

/// That is said of it.
fn expect_said<R: Abort + AllocGlobal>(rt: &R, words: &str, fault: JobFault, want: &str) {
    expect_eq_at(rt, words, said(rt, words, fault).as_str(), want);
}

/// Each of them.
pub(crate) fn expect_told<R: Abort + AllocGlobal>(rt: &R, rows: &[Told]) {
    for (words, fault, want) in rows {
        expect_said(rt, words, *fault, want);
    }
}

/// Words of a drive with all its files.
pub(crate) const DRIVE: &str = "drive d --image i --input n --output o";

/// Words, a file of their job that isn't there, and all that is said of it.
type Absent = (&'static str, JobFile, &'static str);

/// The files of each job, by their paths.
const FILES: &[Absent] = &[
    (
        "history h",
        JobFile::History,
        "the history h: there is no such file\nckrt: File\n",
    ),
    (
        "history h --disk d",
        JobFile::Disk,
        "the disk d: there is no such file\nckrt: File\n",
    ),
    (
        "races --history h",
        JobFile::Disk,
        "the history h: there is no such file\nckrt: File\n",
    ),
    (
        "format d i",
        JobFile::Image,
        "the image i: there is no such file\nckrt: File\n",
    ),
    (
        "format d i",
        JobFile::Disk,
        "the disk d: there is no such file\nckrt: File\n",
    ),
    (
        "run d",
        JobFile::Disk,
        "the disk d: there is no such file\nckrt: File\n",
    ),
    (
        "inspect d",
        JobFile::Disk,
        "the disk d: there is no such file\nckrt: File\n",
    ),
    (
        DRIVE,
        JobFile::Disk,
        "the disk d: there is no such file\nckrt: File\n",
    ),
    (
        DRIVE,
        JobFile::Image,
        "the image i: there is no such file\nckrt: File\n",
    ),
    (
        DRIVE,
        JobFile::Input,
        "the input n: there is no such file\nckrt: File\n",
    ),
    (
        DRIVE,
        JobFile::Output,
        "the output o: there is no such file\nckrt: File\n",
    ),
    (
        DRIVE,
        JobFile::Making,
        "the disk in the making d.making: there is no such file\nckrt: File\n",
    ),
    (
        "drive d",
        JobFile::Output,
        "the output (standard output): there is no such file\nckrt: File\n",
    ),
    (
        "drive d --output o --history h",
        JobFile::History,
        "the history h: there is no such file\nckrt: File\n",
    ),
    (
        "core d c",
        JobFile::Disk,
        "the disk d: there is no such file\nckrt: File\n",
    ),
    (
        "core d c",
        JobFile::Core,
        "the core c: there is no such file\nckrt: File\n",
    ),
    (
        "core h c --history",
        JobFile::Disk,
        "the history h: there is no such file\nckrt: File\n",
    ),
    (
        "core h c --history",
        JobFile::Core,
        "the core c: there is no such file\nckrt: File\n",
    ),
    (
        "calls d",
        JobFile::Disk,
        "the disk d: there is no such file\nckrt: File\n",
    ),
    (
        "debug d",
        JobFile::Disk,
        "the disk d: there is no such file\nckrt: File\n",
    ),
    (
        "races d",
        JobFile::Disk,
        "the disk d: there is no such file\nckrt: File\n",
    ),
    (
        "check d",
        JobFile::Disk,
        "the disk d: there is no such file\nckrt: File\n",
    ),
    (
        "timeline d",
        JobFile::Disk,
        "the disk d: there is no such file\nckrt: File\n",
    ),
    (
        "profile d",
        JobFile::Disk,
        "the disk d: there is no such file\nckrt: File\n",
    ),
    (
        "hunt i",
        JobFile::Image,
        "the image i: there is no such file\nckrt: File\n",
    ),
    (
        "hunt i --input n",
        JobFile::Input,
        "the input n: there is no such file\nckrt: File\n",
    ),
    (
        "hunt i --keep k",
        JobFile::Disk,
        "the disk k: there is no such file\nckrt: File\n",
    ),
    (
        "hunt i --keep k",
        JobFile::Making,
        "the disk in the making k.making: there is no such file\nckrt: File\n",
    ),
    (
        "hunt i --keep k",
        JobFile::Kept,
        "the disk k: there is no such file\nckrt: File\n",
    ),
    (
        "hunt i --keep k/",
        JobFile::FirstKept,
        "the disk k/outcome-1.disk: there is no such file\nckrt: File\n",
    ),
];

/// Each of them.
fn expect_absent<R: Abort + AllocGlobal>(rt: &R, rows: &[Absent]) {
    for (words, file, want) in rows {
        expect_said(rt, words, JobFault::File(*file, FileFault::NotFound), want);
    }
}

#[test]
fn faults_name_the_file_of_the_words(rt: HostRuntime) {
    expect_absent(&rt, FILES);
}

/// Why the disk can't be used, and all that is said of that.
type Unusable = (FileFault, &'static str);

/// Why a file can't be used.
const REASONS_OF_FILES: &[Unusable] = &[
    (
        FileFault::NoFolder,
        "the disk d: its folder is missing; make it, or give another path\nckrt: File\n",
    ),
    (
        FileFault::IsTaken,
        "the disk d: something has this path already; move that away, or give another path\nckrt: File\n",
    ),
    (
        FileFault::NotWritable,
        "the disk d: no file can be made in its folder; see to its permissions, or give another path\nckrt: File\n",
    ),
    (
        FileFault::IsImage,
        "the disk d: the image has this path too\nckrt: File\n",
    ),
    (
        FileFault::IsElf,
        "the disk d: it is an ELF file: guest/image, or objcopy -O binary, makes an image of it\nckrt: File\n",
    ),
    (
        FileFault::NoWords,
        "the disk d: it takes no words: build it by guest/build, without words or files of its own, or leave out -- and --env\nckrt: File\n",
    ),
    (
        FileFault::LongWords,
        "the disk d: with its words it is longer than the largest guest's memory; give fewer or shorter ones\nckrt: File\n",
    ),
    (
        FileFault::IsDisk,
        "the disk d: the disk has this path too; give another\nckrt: File\n",
    ),
    (
        FileFault::IsInput,
        "the disk d: the input has this path too; give another\nckrt: File\n",
    ),
    (
        FileFault::IsOutput,
        "the disk d: the output has this path too; give another\nckrt: File\n",
    ),
    (
        FileFault::IsHistory,
        "the disk d: the history has this path too; give another\nckrt: File\n",
    ),
    (
        FileFault::IsADirectory,
        "the disk d: it is a directory\nckrt: File\n",
    ),
    (
        FileFault::NotAFile,
        "the disk d: it isn't a plain file, and can't be written by offset; without --output the bytes are printed\nckrt: File\n",
    ),
    (
        FileFault::NotAnInput,
        "the disk d: it isn't a plain file, and can't be read by offset; put its bytes into a file, and give that\nckrt: File\n",
    ),
    (
        FileFault::NoLength,
        "the disk d: the system tells no length of it, and it has bytes; copy them into a plain file, and give that\nckrt: File\n",
    ),
    (
        FileFault::PermissionDenied,
        "the disk d: permission denied\nckrt: File\n",
    ),
    (
        FileFault::InUse,
        "the disk d: another program has it locked\nckrt: File\n",
    ),
    (
        FileFault::StorageFull,
        "the disk d: no space is left for it\nckrt: File\n",
    ),
    (
        FileFault::ReadOnly,
        "the disk d: its file system is read-only\nckrt: File\n",
    ),
    (
        FileFault::NotADisk,
        "the disk d: it is no disk, and is unchanged; move it away, or give another path\nckrt: NotADisk\n",
    ),
    (
        FileFault::NotInMaking,
        "the disk d: it is no disk in the making, and is unchanged; move it away, then give the command again\nckrt: File\n",
    ),
    (
        FileFault::NotAStatus,
        "the disk d: it is no status of a drive, and is unchanged; move it away, or give another path\nckrt: File\n",
    ),
    (
        FileFault::NotANewStatus,
        "the disk d: what has this path with .new behind it is no status, and is unchanged; move it away, or give another path\nckrt: File\n",
    ),
    (
        FileFault::NotACore,
        "the disk d: it is no core, and is unchanged; move it away, or give another path\nckrt: File\n",
    ),
    (
        FileFault::NotInWriting,
        "the disk d: what has this path with .making behind it is no core, and is unchanged; move it away, then give the command again\nckrt: File\n",
    ),
    (
        FileFault::Unwritten,
        "the disk d: a write or sync of it failed; look after its device, then give the command again\nckrt: File\n",
    ),
    (
        FileFault::IsThere,
        "the disk d: something has the disk's path meanwhile; look at it, then give the command again\nckrt: File\n",
    ),
    (
        FileFault::OutOfMemory,
        "the disk d: the system refused memory\nckrt: OutOfMemory\n",
    ),
    (
        FileFault::StreamClosed,
        "the disk d: a standard stream is closed\nckrt: File\n",
    ),
    (
        FileFault::Other,
        "the disk d: it can't be opened, read or filled\nckrt: File\n",
    ),
];

/// Each of them.
fn expect_unusable<R: Abort + AllocGlobal>(rt: &R, rows: &[Unusable]) {
    for (why, want) in rows {
        expect_said(rt, "run d", JobFault::File(JobFile::Disk, *why), want);
    }
}

#[test]
fn files_that_cannot_be_used_are_told_by_their_reasons(rt: HostRuntime) {
    expect_unusable(&rt, REASONS_OF_FILES);
}

/// Faults of formatting and of recovery.
const DISKS: &[Told] = &[
    (
        "format d i",
        JobFault::Format(FormatFault::AlreadyFormatted),
        "the disk d: it holds a program already, and is unchanged; `ckrt drive` goes on with it\nckrt: AlreadyFormatted\n",
    ),
    (
        "format d i",
        JobFault::Format(FormatFault::TooSmall),
        "the disk d: it is shorter than pages and journals need, and no plain file that could grow; take a plain file\nckrt: TooSmall\n",
    ),
    (
        "format d i",
        JobFault::Format(FormatFault::ImageTooLong),
        "the image i: it is longer than the guest's memory; take more by --pages\nckrt: ImageTooLong\n",
    ),
    (
        "format d i",
        JobFault::Format(FormatFault::Device),
        "the disk d: a read, write or sync failed; look after the device, then run this again (docs/OPERATING.md)\nckrt: Device\n",
    ),
    (
        "format d i",
        JobFault::Format(FormatFault::OutOfMemory),
        "the system refused memory\nckrt: OutOfMemory\n",
    ),
    (
        "run d",
        JobFault::Recover(RecoverFault::NotFormatted),
        "the disk d: it is no disk of ckrt, or its making was stopped: look at its path (docs/OPERATING.md)\nckrt: NotFormatted\n",
    ),
    (
        "run d",
        JobFault::Recover(RecoverFault::Version),
        "the disk d: another version of ckrt made it (docs/FILE_FORMAT.md)\nckrt: Version\n",
    ),
    (
        "run d",
        JobFault::Recover(RecoverFault::Damaged),
        "the disk d: it has bytes that ckrt doesn't leave; examples/read_disk.py shows them (docs/FILE_FORMAT.md)\nckrt: Damaged\n",
    ),
    (
        "run d",
        JobFault::Recover(RecoverFault::Device),
        "the disk d: a read, write or sync failed; look after the device, then run this again (docs/OPERATING.md)\nckrt: Device\n",
    ),
    (
        "run d",
        JobFault::Recover(RecoverFault::OutOfMemory),
        "the system refused memory\nckrt: OutOfMemory\n",
    ),
];

/// Faults of a service, and of what is shown.
const SHOWN: &[Told] = &[
    (
        "run d",
        JobFault::Serve(ServeFault::Read),
        "standard input: a read failed\nckrt: Read\n",
    ),
    (
        "run d",
        JobFault::Serve(ServeFault::Write),
        "standard output: a write failed\nckrt: Write\n",
    ),
    (
        "run d",
        JobFault::Serve(ServeFault::OutOfMemory),
        "the system refused memory\nckrt: OutOfMemory\n",
    ),
    (
        "run d",
        JobFault::Serve(ServeFault::Format),
        "the stored program isn't one\nckrt: Format\n",
    ),
    (
        "inspect d",
        JobFault::Inspect(InspectFault::NotFormatted),
        "the disk d: it is no disk of ckrt, or its making was stopped: look at its path (docs/OPERATING.md)\nckrt: NotFormatted\n",
    ),
    (
        "inspect d",
        JobFault::Inspect(InspectFault::Version),
        "the disk d: another version of ckrt made it (docs/FILE_FORMAT.md)\nckrt: Version\n",
    ),
    (
        "inspect d",
        JobFault::Inspect(InspectFault::Damaged),
        "the disk d: it has bytes that ckrt doesn't leave; examples/read_disk.py shows them (docs/FILE_FORMAT.md)\nckrt: Damaged\n",
    ),
    (
        "inspect d",
        JobFault::Inspect(InspectFault::Device),
        "the disk d: a read, write or sync failed; look after the device, then run this again (docs/OPERATING.md)\nckrt: Device\n",
    ),
    (
        "inspect d",
        JobFault::Inspect(InspectFault::OutOfMemory),
        "the system refused memory\nckrt: OutOfMemory\n",
    ),
    (
        "inspect d",
        JobFault::Inspect(InspectFault::Write),
        "standard output: a write failed\nckrt: Write\n",
    ),
    (
        "races d",
        JobFault::Inspect(InspectFault::ShadowFull),
        "the disk d: the shadow of its memory has no room left; give more bytes by --memory (it has 2349096960 without it), or look at fewer events by --from, --to or --last\nckrt: ShadowFull\n",
    ),
    (
        "hunt i --races",
        JobFault::ShadowFull,
        "the image i: the shadow of a run's memory has no room left; give more bytes by --memory (it has 2349096960 without it), or fewer --steps\nckrt: ShadowFull\n",
    ),
    (
        "inspect d",
        JobFault::Inspect(InspectFault::Range),
        "the disk d: it has no state after --at events, no longer or not yet; give another number, or leave --at out\nckrt: Range\n",
    ),
];

/// Faults of a drive.
const DRIVES: &[Told] = &[
    (
        DRIVE,
        JobFault::Drive(DriveFault::Device),
        "the disk d: a read, write or sync failed; look after the device, then run this again (docs/OPERATING.md)\nckrt: Device\n",
    ),
    (
        DRIVE,
        JobFault::Drive(DriveFault::Input),
        "the input n: a read failed; look after its device, then the same command goes on\nckrt: Input\n",
    ),
    (
        DRIVE,
        JobFault::Drive(DriveFault::NoRecord),
        "the disk d: it has no room for the record of the input; make it 4096 bytes longer\nckrt: NoRecord\n",
    ),
    (
        DRIVE,
        JobFault::Drive(DriveFault::Output),
        "the output o: a write or sync failed, as where its device does; look after that, then the same command goes on (docs/OPERATING.md)\nckrt: Output\n",
    ),
    (
        DRIVE,
        JobFault::Drive(DriveFault::OutputFull),
        "the output o: it can't have so many bytes\nckrt: OutputFull\n",
    ),
    (
        DRIVE,
        JobFault::Drive(DriveFault::GenerationsUsed),
        "the disk d: it has made as many checkpoints as there can be; make another\nckrt: GenerationsUsed\n",
    ),
    (
        DRIVE,
        JobFault::Drive(DriveFault::Refused(SubmitFault::BatchFull)),
        "the disk d: it can't take another event: its counters are used up\nckrt: Refused\n",
    ),
];

/// Faults of a job that have no other layer's name.
const JOBS: &[Told] = &[
    (
        DRIVE,
        JobFault::OutOfMemory,
        "the system refused memory\nckrt: OutOfMemory\n",
    ),
    (
        DRIVE,
        JobFault::NotRecorded,
        "the disk d: it can't tell how much of the input its program has read, since it was last saved without one: `--input-from` says how many bytes that were then\nckrt: NotRecorded\n",
    ),
    (
        "calls d",
        JobFault::Unrecorded,
        "the disk d: it hasn't recorded all of these events, no longer or not yet; without --from, --to and --at it tells what it has\nckrt: Range\n",
    ),
    (
        "debug d",
        JobFault::OlderDiffers,
        "the disk d: its older journal doesn't lead to its last checkpoint, or it is damaged; `ckrt inspect` tells: where it prints `events K`, give --at K\nckrt: OlderDiffers\n",
    ),
    (
        "hunt i --keep k",
        JobFault::RunTooLong,
        "the disk in the making k.making: it can't take the whole run, mostly since that has more events than a journal; give fewer --steps\nckrt: RunTooLong\n",
    ),
    (
        "hunt i --input n",
        JobFault::InputTooLong,
        "the input n: a hunt gives at most 1048576 bytes; give the first ones, by `head -c`\nckrt: InputTooLong\n",
    ),
];

/// Faults of histories: of the job that keeps one, and of those that look at one.
const HISTORIES: &[Told] = &[
    (
        "history h --disk d",
        JobFault::History(HistoryFault::NotAHistory),
        "the history h: it is no history of ckrt, and is unchanged; look at its path, or give another\nckrt: NotAHistory\n",
    ),
    (
        "history h --disk d",
        JobFault::File(JobFile::History, FileFault::NotAHistory),
        "the history h: it is no history of ckrt, and is unchanged; look at its path, or give another\nckrt: NotAHistory\n",
    ),
    (
        "history h",
        JobFault::History(HistoryFault::Version),
        "the history h: another version of ckrt made it (docs/HISTORIES.md)\nckrt: Version\n",
    ),
    (
        "calls --history h",
        JobFault::History(HistoryFault::Damaged),
        "the history h: it has bytes that ckrt doesn't leave; keep it, and begin another in a new file (docs/HISTORIES.md)\nckrt: Damaged\n",
    ),
    (
        "history h --disk d",
        JobFault::History(HistoryFault::Device),
        "the history h: a read, write or sync failed, or its file was cut short; look after its device and the room there and give the same command again, or begin another in a new file\nckrt: Device\n",
    ),
    (
        "debug --history h",
        JobFault::History(HistoryFault::OutOfMemory),
        "the system refused memory\nckrt: OutOfMemory\n",
    ),
    (
        "history h --disk d",
        JobFault::Recover(RecoverFault::NotFormatted),
        "the disk d: it is no disk of ckrt, or its making was stopped: look at its path (docs/OPERATING.md)\nckrt: NotFormatted\n",
    ),
    (
        "history h --disk d",
        JobFault::HistoryFull,
        "the history h: it can't have so many bytes\nckrt: TooSmall\n",
    ),
    (
        "history h --disk d",
        JobFault::HistoryBehind,
        "the history h: the disk no longer has the events after its last one; keep it, and begin another in a new file\nckrt: HistoryBehind\n",
    ),
    (
        "history h --disk d",
        JobFault::HistoryDiffers,
        "the history h: it is of another program, or of another run of it, or the disk is an older copy; give the disk's own, or a new file\nckrt: HistoryDiffers\n",
    ),
    (
        "history h --part p --from 4",
        JobFault::File(JobFile::Part, FileFault::IsDisk),
        "the part p: the history has this path too; give another\nckrt: File\n",
    ),
    (
        "history h --part p --from 4",
        JobFault::File(JobFile::History, FileFault::NotFound),
        "the history h: there is no such file\nckrt: File\n",
    ),
    (
        "history h --part p --from 4",
        JobFault::Part(HistoryFault::NotAHistory),
        "the part p: it has a history already, or something else, and is unchanged; give another path, or remove it first\nckrt: NotAHistory\n",
    ),
    (
        "history h --part p --from 4",
        JobFault::Part(HistoryFault::Device),
        "the part p: a read, write or sync failed; look after its device and the room there, remove it, and give the same command again\nckrt: Device\n",
    ),
    (
        "history h --part p --from 4",
        JobFault::PartFull,
        "the part p: it can't have so many bytes\nckrt: TooSmall\n",
    ),
    (
        "history h --part p --from 4 --to 900",
        JobFault::Unrecorded,
        "the history h: it hasn't recorded all of these events, no longer or not yet; without --from, --to and --at it tells what it has\nckrt: Range\n",
    ),
    (
        "history h --part p --from 4 --disk d",
        JobFault::Range,
        "--part doesn't go with --disk: give another, or leave it out\nckrt: Range\n",
    ),
    (
        "history h --part p --to 9",
        JobFault::Range,
        "--part goes with --from: give another, or leave it out\nckrt: Range\n",
    ),
    (
        "history h --to 4",
        JobFault::Range,
        "--from and --to go with --part alone: give another, or leave it out\nckrt: Range\n",
    ),
    (
        "history h --part p --from 4 --to 3",
        JobFault::Range,
        "--from is above --to: give another, or leave it out\nckrt: Range\n",
    ),
    (
        "inspect --history h --at 9",
        JobFault::Unrecorded,
        "the history h: it hasn't recorded all of these events, no longer or not yet; without --from, --to and --at it tells what it has\nckrt: Range\n",
    ),
];

#[test]
fn faults_of_all_layers_are_told(rt: HostRuntime) {
    expect_told(&rt, DISKS);
    expect_told(&rt, SHOWN);
    expect_told(&rt, DRIVES);
    expect_told(&rt, JOBS);
    expect_told(&rt, HISTORIES);
}

/// An error of the system, the reason that it is, and all that is said of an output that failed for it.
type Failed = (ErrorKind, OutputReason, &'static str);

const OUTPUTS: &[Failed] = &[
    (
        ErrorKind::StorageFull,
        OutputReason::StorageFull,
        "the output o: no space is left for it; make some, then the same command goes on (docs/OPERATING.md)\nckrt: Output\n",
    ),
    (
        ErrorKind::QuotaExceeded,
        OutputReason::QuotaExceeded,
        "the output o: the disk quota is used up; make some space, then the same command goes on (docs/OPERATING.md)\nckrt: Output\n",
    ),
    (
        ErrorKind::FileTooLarge,
        OutputReason::FileTooLarge,
        "the output o: the file may not become so long; raise that limit (`ulimit -f`), then the same command goes on (docs/OPERATING.md)\nckrt: Output\n",
    ),
    (
        ErrorKind::ReadOnlyFilesystem,
        OutputReason::ReadOnly,
        "the output o: its file system is read-only; make it writable, then the same command goes on (docs/OPERATING.md)\nckrt: Output\n",
    ),
    (
        ErrorKind::BrokenPipe,
        OutputReason::BrokenPipe,
        "the output o: the pipe is broken, as nothing reads it any more; the same command goes on, with --from and the number of bytes that you have (docs/OPERATING.md)\nckrt: Output\n",
    ),
    (
        ErrorKind::WouldBlock,
        OutputReason::WouldBlock,
        "the output o: it takes no more at once, and is set not to wait (O_NONBLOCK); give it as `| cat`, then the same command goes on (docs/OPERATING.md)\nckrt: Output\n",
    ),
    (
        ErrorKind::PermissionDenied,
        OutputReason::Other,
        "the output o: a write or sync failed, as where its device does; look after that, then the same command goes on (docs/OPERATING.md)\nckrt: Output\n",
    ),
];

/// A writer that fails by such an error.
#[derive(Drop)]
struct Failing(ErrorKind);

impl Write for Failing {
    fn write(&mut self, _buf: &[u8]) -> io::Result<usize> {
        Err(io::Error::from(self.0))
    }

    fn flush(&mut self) -> io::Result<()> {
        Err(io::Error::from(self.0))
    }
}

/// The reason that is noted of an output that fails so, by a write, and by a flush.
fn expect_reason<R: Abort>(rt: &R, kind: ErrorKind, want: OutputReason) {
    let why = Cell::new(OutputReason::Passing);
    let mut writer = ToldWriter::new(Failing(kind), &why);
    let _ = writer.write(b"x");
    expect_eq_at(rt, "a write", why.get(), want);
    why.set(OutputReason::Passing);
    let _ = writer.flush();
    expect_eq_at(rt, "a flush", why.get(), want);
}

/// Each of them.
fn expect_reasons<R: Abort + AllocGlobal>(rt: &R, rows: &[Failed]) {
    for (kind, reason, want) in rows {
        expect_reason(rt, *kind, *reason);
        expect_said(rt, DRIVE, JobFault::OutputFailed(*reason), want);
    }
}

const PASSING: &str =
    "the output o: a write or sync failed, and not when it was tried again; the same command goes on (docs/OPERATING.md)\nckrt: Output\n";

#[test]
fn failed_outputs_are_told_by_their_reasons(rt: HostRuntime) {
    expect_reasons(&rt, OUTPUTS);
    expect_said(
        &rt,
        DRIVE,
        JobFault::OutputFailed(OutputReason::Passing),
        PASSING,
    );
}
