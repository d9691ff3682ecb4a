//! The snapshots that lie beside a history: those of FILE are in the folder FILE.snapshots, each with the number of its events as its name.
use ckrt_cli_words::{Job, StretchJob, read_words};
use std::fs::read_dir;
use std::io;

/// The history of a stretch, where that is of one.
fn in_stretch<'a>(job: &StretchJob<'a>) -> Option<&'a str> {
    if job.history { Some(job.disk) } else { None }
}

/// The history that a job looks at, where it does.
fn history_of<'a>(job: &Job<'a>) -> Option<&'a str> {
    match job {
        Job::Inspect(job) if job.history => Some(job.disk),
        Job::Core(job) if job.history => Some(job.disk),
        Job::Debug(job) if job.history => Some(job.disk),
        Job::Calls(job) => in_stretch(job),
        Job::Races(job) => in_stretch(&job.stretch),
        Job::Check(job) => in_stretch(&job.stretch),
        Job::Timeline(job) => in_stretch(&job.stretch),
        Job::Profile(job) => in_stretch(&job.stretch),
        _ => None,
    }
}

/// The paths of the snapshots beside the history of a path, a line each. What has no number as its name is none.
fn beside(rt: &HostRuntime, history: &str) -> io::Result<String> {
    let folder = format!(in rt.alloc(); "{history}.snapshots")?;
    let mut paths = String::new(rt.alloc());
    for entry in read_dir(rt, folder.as_str())? {
        let entry = entry?;
        if entry.file_name().parse::<u64>().is_ok() {
            paths.push_str(folder.as_str())?;
            paths.push_str("/")?;
            paths.push_str(entry.file_name())?;
            paths.push_str("\n")?;
        }
    }
    Ok(paths)
}

/// The paths of the snapshots beside the history that these words look at, a line each; none where they look at none, or none can be listed.
pub fn snapshots_for(rt: &HostRuntime, words: &[&str]) -> String {
    let none = String::new(rt.alloc());
    let Ok(job) = read_words(rt.alloc(), words) else {
        return none;
    };
    match history_of(&job) {
        Some(history) => beside(rt, history).unwrap_or(none),
        None => none,
    }
}
