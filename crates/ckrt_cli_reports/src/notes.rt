//! What a disk notes, beside what the words give.
use ckrt_stored::{ProgramNote, ScheduleNote};

/// The program that a disk notes, and the one of the image that the words give.
#[derive(Clone, Copy, Debug, PartialEq, Eq)]
pub struct ProgramNotes {
    /// What the disk notes.
    pub disk: ProgramNote,
    /// What it would note of the image.
    pub image: ProgramNote,
}

/// The schedule that a disk notes, and the one of the words.
#[derive(Clone, Copy, Debug, PartialEq, Eq)]
pub struct ScheduleNotes {
    /// What the disk notes.
    pub disk: ScheduleNote,
    /// What it would note of the words.
    pub words: ScheduleNote,
}
