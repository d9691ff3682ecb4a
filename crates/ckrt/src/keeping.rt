//! How a drive keeps its history, by the words beside its job.
use ckrt_cli_words::{Job, Keeping};
use std::alloc::{AllocError, Global};

/// What is wrong with the words on how a history is kept.
#[derive(Clone, Copy)]
pub enum WrongKeeping {
    /// Snapshots of no history.
    SnapshotsAlone,
    /// No history may end.
    MayEndAlone,
    /// Snapshots without a second between them.
    NoSeconds,
}

impl WrongKeeping {
    /// What is wrong, in plain words.
    pub fn text(self) -> &'static str {
        match self {
            WrongKeeping::SnapshotsAlone => "--snapshots goes with --history",
            WrongKeeping::MayEndAlone => "--history-may-end goes with --history",
            WrongKeeping::NoSeconds => "--snapshots 0 isn't 1 or more",
        }
    }
}

/// Whether a job is a drive that keeps a history.
fn keeps_history(job: &Job<'_>) -> bool {
    match job {
        Job::Drive(job) => job.history.is_some(),
        _ => false,
    }
}

/// What is wrong with how a job is to keep its history, if anything is.
pub fn wrong_keeping(keeping: Keeping, job: &Job<'_>) -> Option<WrongKeeping> {
    if keeps_history(job) {
        return match keeping.snapshots {
            Some(0) => Some(WrongKeeping::NoSeconds),
            _ => None,
        };
    }
    if keeping.snapshots.is_some() {
        return Some(WrongKeeping::SnapshotsAlone);
    }
    if keeping.may_end {
        return Some(WrongKeeping::MayEndAlone);
    }
    None
}

/// The options with a value that a drive loses which goes on without its history. Where the output was begun without it is given anew.
const LOST: [&str; 2] = ["--history", "--snapshots"];

/// The one without a value.
const MAY_END: &str = "--history-may-end";

/// Where the output begins that is printed.
const FROM: &str = "--from";

/// What a word of a drive is to one that goes on without its history.
#[derive(Clone, Copy, PartialEq, Eq)]
enum Kind {
    /// It stays.
    Kept,
    /// It goes.
    Lost,
    /// It goes, and the next one too, which is its value.
    LostWithNext,
}

/// Whether a word is an option with its value behind an equals sign.
fn is_with_value(word: &str, option: &str) -> bool {
    match word.strip_prefix(option) {
        Some(rest) => rest.starts_with("="),
        None => false,
    }
}

/// What a word is, where the offset of the output is given anew or not.
fn kind_of(word: &str, is_offset_new: bool) -> Kind {
    let is_lost = |option: &str| word == option;
    if LOST.iter().any(|option| is_lost(option)) || is_offset_new && word == FROM {
        return Kind::LostWithNext;
    }
    let is_joined = LOST.iter().any(|option| is_with_value(word, option));
    if word == MAY_END || is_joined || is_offset_new && is_with_value(word, FROM) {
        return Kind::Lost;
    }
    Kind::Kept
}

/// The words of a drive without its history. Where it prints its output that begins at this offset.
pub fn words_without_history<'a>(
    alloc: Global,
    words: &[&'a str],
    offset: Option<&'a str>,
) -> Result<Vec<&'a str>, AllocError> {
    let mut kept = Vec::new(alloc);
    let mut is_value = false;
    for word in words.iter() {
        let kind = kind_of(word, offset.is_some());
        if is_value {
            is_value = false;
        } else if kind == Kind::Kept {
            kept.push(*word)?;
        } else {
            is_value = kind == Kind::LostWithNext;
        }
    }
    if let Some(offset) = offset {
        kept.push(FROM)?;
        kept.push(offset)?;
    }
    Ok(kept)
}

/// The history of a job, if it keeps one.
pub fn history_of<'a>(job: Option<&Job<'a>>) -> Option<&'a str> {
    match job {
        Some(Job::Drive(job)) => job.history,
        _ => None,
    }
}

/// From which offset on a drive prints its output that goes on, where it does, once all below this one was put out.
pub fn next_offset(job: Option<&Job<'_>>, put_out: u64) -> Option<u64> {
    match job {
        Some(Job::Drive(job)) if job.output.is_none() => {
            Some(job.from.unwrap_or(0).max(put_out))
        }
        _ => None,
    }
}

/// What was reported of a fault, but for its last line, which has its name.
pub fn without_last_line(report: &[u8]) -> &[u8] {
    let (_, lines) = match report.split_last() {
        Some(split) => split,
        None => return report,
    };
    match lines.iter().rposition(|byte| *byte == b'\n') {
        Some(at) => report.get(..at.saturating_add(1)).unwrap_or(report),
        None => &[],
    }
}
