//! The rules by which a job finds callers.
use ckrt_cli_names::Names;
use ckrt_cli_words::Job;
use ckrt_look_recording::Rule;
use std::alloc::{AllocError, Global};

/// Those that the names of a disk have, for a job that tells callers of each race, or of each error of memory.
pub fn rules_for(alloc: Global, job: &Job<'_>, names: &Names) -> Result<Vec<Rule>, AllocError> {
    match job {
        Job::Races(_) | Job::Check(_) => names.copied_rules(alloc),
        _ => Ok(Vec::new(alloc)),
    }
}
