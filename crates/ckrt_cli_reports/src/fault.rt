//! Why a job wasn't done.
ghost use Rattle.std.specs.Prelude.{◌≡◌};
ghost use Rattle.ckrt_cli_reports.specs.Names.{name_of, name_of_drive, name_of_history, name_of_look};

use crate::lengths::{InputLengths, OutputLengths};
use crate::notes::{ProgramNotes, ScheduleNotes};
use ckrt_cli_files::{FileFault, JobFile, OutputReason};
use ckrt_drive::DriveFault;
use ckrt_history::HistoryFault;
use ckrt_inspect::InspectFault;
use ckrt_main::ServeFault;
use ckrt_recovery::{Config, FormatFault, RecoverFault};

/// Why a job wasn't done.
#[derive(Clone, Copy, Debug, PartialEq, Eq)]
pub enum JobFault {
    /// This file can't be opened, read, locked or filled.
    File(JobFile, FileFault),
    /// There was no memory for the image, for the core, or for a debugger's session.
    OutOfMemory,
    /// A run of a hunt that was looked at closer fills the room of the shadow.
    ShadowFull,
    /// The disk wasn't formatted.
    Format(FormatFault),
    /// Nothing was recovered from the disk.
    Recover(RecoverFault),
    /// The service ended early.
    Serve(ServeFault),
    /// The disk wasn't shown, or its program wasn't found for a core or a debugger.
    Inspect(InspectFault),
    /// The numbers of a drive are out of their ranges.
    Range,
    /// The disk has these sizes, which aren't those that were asked for.
    SizesDiffer(Config),
    /// The disk notes another program than that of the image.
    ImageDiffers(ProgramNotes),
    /// The disk notes another schedule than that of the words.
    ScheduleDiffers(ScheduleNotes),
    /// The file of the output has another length than that of the disk.
    OutputDiffers(OutputLengths),
    /// The disk can't tell how much of its input its program has taken.
    NotRecorded,
    /// The program has taken so many bytes of its input, which aren't those that the words say.
    OffsetDiffers(u64),
    /// The file of the input has fewer bytes than the program has taken.
    InputTooShort(InputLengths),
    /// The output failed a write or a sync, and this is why.
    OutputFailed(OutputReason),
    /// The drive ended early.
    Drive(DriveFault),
    /// The disk hasn't recorded all of a stretch of events, or no longer has it.
    Unrecorded,
    /// The disk's older journal doesn't lead to its last checkpoint, or an event isn't accepted at its turn.
    OlderDiffers,
    /// The disk that is made for a run of a hunt can't take all of its events.
    RunTooLong,
    /// The file of the input of a hunt has more bytes than a hunt gives.
    InputTooLong,
    /// Nothing was read of the history, or it doesn't grow.
    History(HistoryFault),
    /// The file of the history can't have so many bytes.
    HistoryFull,
    /// The disk no longer has the events after the history's last one.
    HistoryBehind,
    /// The history is of another program than the disk, or has other events, or more.
    HistoryDiffers,
    /// Its file isn't free for a part of a history, or failed a call.
    Part(HistoryFault),
    /// The file of the part can't have so many bytes.
    PartFull,
}

/// What is said where the disk failed a call.
const DEVICE_ADVICE: &str =
    "a read, write or sync failed; look after the device, then run this again (docs/OPERATING.md)";

/// What is said of an input whose file failed a read.
const INPUT_ADVICE: &str = "a read failed; look after its device, then the same command goes on";

/// What is said of a disk that has no place for the record of the input.
const RECORD_ADVICE: &str = "it has no room for the record of the input; make it 4096 bytes longer";

/// What is said of a look whose shadow has no room left.
const SHADOW_ADVICE: &str =
    "the shadow of its memory has no room left; give more bytes by --memory (it has 2349096960 without it), or look at fewer events by --from, --to or --last";

/// What is said of a hunt where a run has no room left for its shadow.
const HUNTED_SHADOW_ADVICE: &str =
    "the shadow of a run's memory has no room left; give more bytes by --memory (it has 2349096960 without it), or fewer --steps";

/// What is said of a fault of formatting.
fn format_advice(fault: FormatFault) -> &'static str {
    match fault {
        FormatFault::AlreadyFormatted => {
            "it holds a program already, and is unchanged; `ckrt drive` goes on with it"
        }
        FormatFault::TooSmall => {
            "it is shorter than pages and journals need, and no plain file that could grow; take a plain file"
        }
        FormatFault::BadConfig => UNFIT_ADVICE,
        FormatFault::ImageTooLong => "it is longer than the guest's memory; take more by --pages",
        FormatFault::Device => DEVICE_ADVICE,
        FormatFault::OutOfMemory => FileFault::OutOfMemory.text(),
    }
}

/// What is said of a fault of recovery.
fn recovery_advice(fault: RecoverFault) -> &'static str {
    match fault {
        RecoverFault::NotFormatted => {
            "it is no disk of ckrt, or its making was stopped: look at its path (docs/OPERATING.md)"
        }
        RecoverFault::Version => "another version of ckrt made it (docs/FILE_FORMAT.md)",
        RecoverFault::Damaged => {
            "it has bytes that ckrt doesn't leave; examples/read_disk.py shows them (docs/FILE_FORMAT.md)"
        }
        RecoverFault::Device => DEVICE_ADVICE,
        RecoverFault::OutOfMemory => FileFault::OutOfMemory.text(),
    }
}

/// What is said of a fault of the service.
fn service_advice(fault: ServeFault) -> &'static str {
    match fault {
        ServeFault::Read => "standard input: a read failed",
        ServeFault::Write => "standard output: a write failed",
        ServeFault::OutOfMemory => FileFault::OutOfMemory.text(),
        ServeFault::Format => "the stored program isn't one",
    }
}

/// What is said of a fault of showing a disk.
fn inspection_advice(fault: InspectFault) -> &'static str {
    match fault {
        InspectFault::NotFormatted => recovery_advice(RecoverFault::NotFormatted),
        InspectFault::Version => recovery_advice(RecoverFault::Version),
        InspectFault::Damaged => recovery_advice(RecoverFault::Damaged),
        InspectFault::Device => DEVICE_ADVICE,
        InspectFault::OutOfMemory => FileFault::OutOfMemory.text(),
        InspectFault::ShadowFull => SHADOW_ADVICE,
        InspectFault::Write => service_advice(ServeFault::Write),
        InspectFault::Range => {
            "it has no state after --at events, no longer or not yet; give another number, or leave --at out"
        }
    }
}

/// The name of a fault of showing a disk.
fn inspection_name(fault: InspectFault) -> &'static str
    ensures { result.now ≡ name_of_look fault }
{
    match fault {
        InspectFault::NotFormatted => "NotFormatted",
        InspectFault::Version => "Version",
        InspectFault::Damaged => "Damaged",
        InspectFault::Device => "Device",
        InspectFault::OutOfMemory => "OutOfMemory",
        InspectFault::Write => "Write",
        InspectFault::Range => "Range",
        InspectFault::ShadowFull => "ShadowFull",
    }
}

/// What is said of a fault of a drive.
fn drive_advice(fault: DriveFault) -> &'static str {
    match fault {
        DriveFault::Device => DEVICE_ADVICE,
        DriveFault::Input => INPUT_ADVICE,
        DriveFault::NoRecord => RECORD_ADVICE,
        DriveFault::Output => OutputReason::Other.text(),
        DriveFault::OutputFull => "it can't have so many bytes",
        DriveFault::GenerationsUsed =>
            "it has made as many checkpoints as there can be; make another",
        DriveFault::Refused(_) => "it can't take another event: its counters are used up",
    }
}

/// The name of a fault of a drive.
fn drive_name(fault: DriveFault) -> &'static str
    ensures { result.now ≡ name_of_drive fault }
{
    match fault {
        DriveFault::Device => "Device",
        DriveFault::Input => "Input",
        DriveFault::NoRecord => "NoRecord",
        DriveFault::Output => "Output",
        DriveFault::OutputFull => "OutputFull",
        DriveFault::GenerationsUsed => "GenerationsUsed",
        DriveFault::Refused(_) => "Refused",
    }
}

/// What is said behind a number that is out of its range.
const UNFIT_ADVICE: &str = "give another, or leave it out";

/// What is said of a disk with other sizes than those that were asked for, behind its own.
const SIZES_ADVICE: &str = "these stay; give them, or leave them out";

/// What is said of a disk of another program than that of the image, behind the digests of both.
const IMAGE_ADVICE: &str =
    "to begin anew remove disk and output; to go on with the program of the disk leave --image out";

/// What is said of a disk that notes another schedule than that of the words, behind both.
const SCHEDULE_ADVICE: &str =
    "give those of the disk; or add --other-schedule to go on by the new one, by which the output may be another; to begin anew remove disk and output";

/// What is said of a disk that can't tell how much of its input its program has taken.
const NOT_RECORDED_ADVICE: &str =
    "it can't tell how much of the input its program has read, since it was last saved without one: `--input-from` says how many bytes that were then";

/// What is said of words with another offset than that of the disk, behind that.
const OFFSET_ADVICE: &str = "leave --input-from out";

/// What is said of a file that is shorter than what was taken of it, behind the numbers.
const SHORT_ADVICE: &str = "give the file that it had before, whole";

/// What is said of a disk that hasn't recorded a stretch of events.
const STRETCH_ADVICE: &str =
    "it hasn't recorded all of these events, no longer or not yet; without --from, --to and --at it tells what it has";

/// What is said of a disk whose older journal doesn't lead to its last checkpoint, or of whose events one isn't accepted.
const OLDER_ADVICE: &str =
    "its older journal doesn't lead to its last checkpoint, or it is damaged; `ckrt inspect` tells: where it prints `events K`, give --at K";

/// What is said of a disk that can't take a whole run.
const RUN_ADVICE: &str =
    "it can't take the whole run, mostly since that has more events than a journal; give fewer --steps";

/// What is said of an input that is longer than a hunt gives.
const LONG_ADVICE: &str = "a hunt gives at most 1048576 bytes; give the first ones, by `head -c`";

/// What is said of a history that the disk has left behind.
const BEHIND_ADVICE: &str =
    "the disk no longer has the events after its last one; keep it, and begin another in a new file";

/// What is said of a history that isn't the disk's.
const OTHER_ADVICE: &str =
    "it is of another program, or of another run of it, or the disk is an older copy; give the disk's own, or a new file";

/// What is said of a fault of a history.
fn history_advice(fault: HistoryFault) -> &'static str {
    match fault {
        HistoryFault::NotAHistory => FileFault::NotAHistory.text(),
        HistoryFault::Version => "another version of ckrt made it (docs/HISTORIES.md)",
        HistoryFault::Damaged => {
            "it has bytes that ckrt doesn't leave; keep it, and begin another in a new file (docs/HISTORIES.md)"
        }
        HistoryFault::Device => {
            "a read, write or sync failed, or its file was cut short; look after its device and the room there and give the same command again, or begin another in a new file"
        }
        HistoryFault::OutOfMemory => FileFault::OutOfMemory.text(),
    }
}

/// What is said of a fault of a part that is made of a history.
fn part_advice(fault: HistoryFault) -> &'static str {
    match fault {
        HistoryFault::NotAHistory => {
            "it has a history already, or something else, and is unchanged; give another path, or remove it first"
        }
        HistoryFault::Device => {
            "a read, write or sync failed; look after its device and the room there, remove it, and give the same command again"
        }
        HistoryFault::Version | HistoryFault::Damaged | HistoryFault::OutOfMemory => {
            history_advice(fault)
        }
    }
}

/// The name of a fault of a history.
fn history_name(fault: HistoryFault) -> &'static str
    ensures { result.now ≡ name_of_history fault }
{
    match fault {
        HistoryFault::NotAHistory => "NotAHistory",
        HistoryFault::Version => "Version",
        HistoryFault::Damaged => "Damaged",
        HistoryFault::Device => "Device",
        HistoryFault::OutOfMemory => "OutOfMemory",
    }
}

/// What is said of an output whose file has another length than that of the disk, behind its numbers.
fn lengths_advice(lengths: OutputLengths) -> &'static str {
    if lengths.length < lengths.confirmed {
        "some of the output was lost or cut: `truncate -s` to the first number goes on, with zeros for what is gone"
    } else {
        "it may be another run's: give a new file; if the disk is an older copy, `truncate -s` to the last number goes on"
    }
}

/// The file that a fault of a drive is of.
fn drive_file(fault: DriveFault) -> JobFile {
    match fault {
        DriveFault::Input => JobFile::Input,
        DriveFault::Output | DriveFault::OutputFull => JobFile::Output,
        DriveFault::Device
        | DriveFault::NoRecord
        | DriveFault::GenerationsUsed
        | DriveFault::Refused(_) => JobFile::Disk,
    }
}

impl JobFault {
    /// The fault's name, as the program prints it.
    pub fn name(self) -> &'static str
        ensures { result.now ≡ name_of self }
    {
        match self {
            JobFault::File(_, FileFault::OutOfMemory) => "OutOfMemory",
            JobFault::File(_, FileFault::NotADisk) => "NotADisk",
            JobFault::File(_, FileFault::NotAHistory) => "NotAHistory",
            JobFault::File(_, _) => "File",
            JobFault::OutOfMemory
            | JobFault::Format(FormatFault::OutOfMemory)
            | JobFault::Recover(RecoverFault::OutOfMemory)
            | JobFault::Serve(ServeFault::OutOfMemory) => "OutOfMemory",
            JobFault::ShadowFull => "ShadowFull",
            JobFault::Format(FormatFault::Device) | JobFault::Recover(RecoverFault::Device) => {
                "Device"
            }
            JobFault::Format(FormatFault::AlreadyFormatted) => "AlreadyFormatted",
            JobFault::Format(FormatFault::TooSmall) => "TooSmall",
            JobFault::Format(FormatFault::BadConfig) => "BadConfig",
            JobFault::Format(FormatFault::ImageTooLong) => "ImageTooLong",
            JobFault::Recover(RecoverFault::NotFormatted) => "NotFormatted",
            JobFault::Recover(RecoverFault::Version) => "Version",
            JobFault::Recover(RecoverFault::Damaged) => "Damaged",
            JobFault::Serve(ServeFault::Read) => "Read",
            JobFault::Serve(ServeFault::Write) => "Write",
            JobFault::Serve(ServeFault::Format) => "Format",
            JobFault::Inspect(fault) => inspection_name(fault),
            JobFault::Range => "Range",
            JobFault::SizesDiffer(_) => "BadConfig",
            JobFault::ImageDiffers(_) => "ImageDiffers",
            JobFault::ScheduleDiffers(_) => "ScheduleDiffers",
            JobFault::OutputDiffers(_) => "OutputDiffers",
            JobFault::NotRecorded => "NotRecorded",
            JobFault::OffsetDiffers(_) => "OffsetDiffers",
            JobFault::InputTooShort(_) => "InputTooShort",
            JobFault::OutputFailed(_) => "Output",
            JobFault::Drive(fault) => drive_name(fault),
            JobFault::Unrecorded => "Range",
            JobFault::OlderDiffers => "OlderDiffers",
            JobFault::RunTooLong => "RunTooLong",
            JobFault::InputTooLong => "InputTooLong",
            JobFault::History(fault) => history_name(fault),
            JobFault::HistoryFull => "TooSmall",
            JobFault::HistoryBehind => "HistoryBehind",
            JobFault::HistoryDiffers => "HistoryDiffers",
            JobFault::Part(fault) => history_name(fault),
            JobFault::PartFull => "TooSmall",
        }
    }

    /// What is wrong, in plain words, and what to do about it.
    pub fn advice(self) -> &'static str {
        match self {
            JobFault::File(JobFile::Part, FileFault::IsDisk) => FileFault::IsHistory.text(),
            JobFault::File(_, fault) => fault.text(),
            JobFault::OutOfMemory => FileFault::OutOfMemory.text(),
            JobFault::ShadowFull => HUNTED_SHADOW_ADVICE,
            JobFault::Format(fault) => format_advice(fault),
            JobFault::Recover(fault) => recovery_advice(fault),
            JobFault::Serve(fault) => service_advice(fault),
            JobFault::Inspect(fault) => inspection_advice(fault),
            JobFault::Range => UNFIT_ADVICE,
            JobFault::SizesDiffer(_) => SIZES_ADVICE,
            JobFault::ImageDiffers(_) => IMAGE_ADVICE,
            JobFault::ScheduleDiffers(_) => SCHEDULE_ADVICE,
            JobFault::OutputDiffers(lengths) => lengths_advice(lengths),
            JobFault::NotRecorded => NOT_RECORDED_ADVICE,
            JobFault::OffsetDiffers(_) => OFFSET_ADVICE,
            JobFault::InputTooShort(_) => SHORT_ADVICE,
            JobFault::OutputFailed(why) => why.text(),
            JobFault::Drive(fault) => drive_advice(fault),
            JobFault::Unrecorded => STRETCH_ADVICE,
            JobFault::OlderDiffers => OLDER_ADVICE,
            JobFault::RunTooLong => RUN_ADVICE,
            JobFault::InputTooLong => LONG_ADVICE,
            JobFault::History(fault) => history_advice(fault),
            JobFault::HistoryFull | JobFault::PartFull => drive_advice(DriveFault::OutputFull),
            JobFault::HistoryBehind => BEHIND_ADVICE,
            JobFault::HistoryDiffers => OTHER_ADVICE,
            JobFault::Part(fault) => part_advice(fault),
        }
    }

    /// The file that the fault is of.
    pub fn file(self) -> Option<JobFile> {
        match self {
            JobFault::File(file, _) => Some(file),
            JobFault::Format(FormatFault::ImageTooLong) | JobFault::ShadowFull => {
                Some(JobFile::Image)
            }
            JobFault::Format(
                FormatFault::AlreadyFormatted | FormatFault::TooSmall | FormatFault::Device,
            ) => Some(JobFile::Disk),
            JobFault::Recover(
                RecoverFault::NotFormatted
                | RecoverFault::Version
                | RecoverFault::Damaged
                | RecoverFault::Device,
            ) => Some(JobFile::Disk),
            JobFault::Inspect(
                InspectFault::NotFormatted
                | InspectFault::Version
                | InspectFault::Damaged
                | InspectFault::Device
                | InspectFault::ShadowFull
                | InspectFault::Range,
            ) => Some(JobFile::Disk),
            JobFault::SizesDiffer(_)
            | JobFault::ImageDiffers(_)
            | JobFault::ScheduleDiffers(_)
            | JobFault::NotRecorded
            | JobFault::OffsetDiffers(_)
            | JobFault::Unrecorded
            | JobFault::OlderDiffers => Some(JobFile::Disk),
            JobFault::OutputDiffers(_) | JobFault::OutputFailed(_) => Some(JobFile::Output),
            JobFault::InputTooShort(_) | JobFault::InputTooLong => Some(JobFile::Input),
            JobFault::Drive(fault) => Some(drive_file(fault)),
            JobFault::RunTooLong => Some(JobFile::Making),
            JobFault::History(
                HistoryFault::NotAHistory
                | HistoryFault::Version
                | HistoryFault::Damaged
                | HistoryFault::Device,
            )
            | JobFault::HistoryFull
            | JobFault::HistoryBehind
            | JobFault::HistoryDiffers => Some(JobFile::History),
            JobFault::Part(
                HistoryFault::NotAHistory
                | HistoryFault::Version
                | HistoryFault::Damaged
                | HistoryFault::Device,
            )
            | JobFault::PartFull => Some(JobFile::Part),
            _ => None,
        }
    }
}
