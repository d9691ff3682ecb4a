//! The words of a job, and those that its program gets.
use crate::beside::read_front;
use ckrt_cli_files::{LARGEST_IMAGE, ProgramWords, put_words};
use ckrt_cli_words::Job;
use sha2::{Digest, Sha256};
use std::alloc::{AllocError, Global};
use std::fs::{File, Files};

/// The jobs that read an image.
const OF_AN_IMAGE: &[&str] = &["drive", "format", "hunt"];

/// What stands before the arguments of a program.
const ARGUMENTS_FOLLOW: &str = "--";

/// The option that gives a variable of its environment.
const VARIABLE: &str = "--env";

/// The same with its value in one word.
const VARIABLE_IS: &str = "--env=";

/// Where names have the digest of their image in hexadecimal, and its length (docs/NAMES.md).
const DIGEST_AT: usize = 13;

const DIGEST_END: usize = 77;

const LENGTH_AT: usize = 78;

const LENGTH_END: usize = 86;

/// What is wrong with the words for a program.
#[derive(Clone, Copy)]
pub enum WrongWords<'a> {
    /// A variable isn't NAME=VALUE.
    NotAVariable(&'a str),
    /// There is no image to put them into.
    NoImage,
}

/// Whether the first of the arguments after the program's name is a job that reads an image.
fn reads_an_image(arguments: &[String]) -> bool {
    match arguments.get(1) {
        Some(first) => OF_AN_IMAGE.iter().any(|job| *job == first.as_str()),
        None => false,
    }
}

/// How many of the arguments, with the program's name, stand before those of its guest.
fn front_of(arguments: &[String]) -> usize {
    if !reads_an_image(arguments) {
        return arguments.len();
    }
    arguments
        .iter()
        .position(|word| word.as_str() == ARGUMENTS_FOLLOW)
        .unwrap_or(arguments.len())
}

/// The words of the job itself: all but the values of `--env`, where it reads an image, and what stands after `--`. An `--env` without a
/// value stays, and the job refuses it.
pub fn job_words<'a>(alloc: Global, arguments: &'a [String]) -> Result<Vec<&'a str>, AllocError> {
    let reads = reads_an_image(arguments);
    let mut words = Vec::new(alloc);
    let mut is_value = false;
    for word in arguments.iter().take(front_of(arguments)).skip(1) {
        let word = word.as_str();
        if is_value {
            is_value = false;
        } else if reads && word == VARIABLE {
            is_value = true;
        } else if !reads || !word.starts_with(VARIABLE_IS) {
            words.push(word)?;
        }
    }
    if is_value {
        words.push(VARIABLE)?;
    }
    Ok(words)
}

/// What the guest's `main` gets after its name.
pub fn guest_arguments<'a>(
    alloc: Global,
    arguments: &'a [String],
) -> Result<Vec<&'a str>, AllocError> {
    let mut words = Vec::new(alloc);
    for word in arguments.iter().skip(front_of(arguments).saturating_add(1)) {
        words.push(word.as_str())?;
    }
    Ok(words)
}

/// The variables of the guest's environment.
pub fn guest_variables<'a>(
    alloc: Global,
    arguments: &'a [String],
) -> Result<Vec<&'a str>, AllocError> {
    let reads = reads_an_image(arguments);
    let mut words = Vec::new(alloc);
    let mut is_value = false;
    for word in arguments.iter().take(front_of(arguments)).skip(1) {
        let word = word.as_str();
        if is_value {
            words.push(word)?;
            is_value = false;
        } else if reads && word == VARIABLE {
            is_value = true;
        } else if reads {
            if let Some(value) = word.strip_prefix(VARIABLE_IS) {
                words.push(value)?;
            }
        }
    }
    Ok(words)
}

/// What the guest gets, if it gets anything.
pub fn program_words<'a>(
    arguments: &'a [&'a str],
    variables: &'a [&'a str],
) -> Option<ProgramWords<'a>> {
    if arguments.is_empty() && variables.is_empty() {
        return None;
    }
    Some(ProgramWords {
        arguments,
        variables,
    })
}

/// What is wrong with the words for the guest of a job, if anything is.
pub fn wrong_words<'a>(program: Option<ProgramWords<'a>>, job: &Job<'_>) -> Option<WrongWords<'a>> {
    let words = program?;
    for text in words.variables {
        if !is_variable(text) {
            return Some(WrongWords::NotAVariable(text));
        }
    }
    match image_of(job) {
        Some(_) => None,
        None => Some(WrongWords::NoImage),
    }
}

/// Whether a text is NAME=VALUE, with a name.
fn is_variable(text: &str) -> bool {
    match text.find('=') {
        Some(at) => at > 0,
        None => false,
    }
}

/// The image that a job reads.
fn image_of<'a>(job: &Job<'a>) -> Option<&'a str> {
    match job {
        Job::Format(job) => Some(job.image),
        Job::Drive(job) => job.image,
        Job::Hunt(job) => Some(job.image),
        _ => None,
    }
}

/// The image of a path with words, where it can be read and takes them. The job itself says why not.
fn image_with<R: Files<File = File>>(
    rt: &R,
    alloc: Global,
    path: &str,
    words: &ProgramWords<'_>,
) -> Option<Vec<u8>> {
    let mut image = read_front(rt, alloc, path, LARGEST_IMAGE as u64).ok()?;
    put_words(&mut image, words).ok()?;
    Some(image)
}

/// Makes the names of an image those of the image with words: they say by its digest and its length of which image they are.
fn rename(names: &mut [u8], image: &[u8]) -> Option<()> {
    if names.len() < LENGTH_END {
        return None;
    }
    let digest: [u8; 32] = Sha256::digest(image);
    hex::encode_to_slice(digest, &mut names[DIGEST_AT..DIGEST_END]).ok()?;
    let length = u32::try_from(image.len()).ok()?.to_be_bytes();
    hex::encode_to_slice(length, &mut names[LENGTH_AT..LENGTH_END]).ok()
}

/// The names that the disks of a job get, whose program gets words: those of its image, as of the image with them. None where that can't be
/// had: the job says why.
pub fn names_with_words<R: Files<File = File>>(
    rt: &R,
    alloc: Global,
    job: &Job<'_>,
    words: &ProgramWords<'_>,
    mut names: Vec<u8>,
) -> Vec<u8> {
    let image = image_of(job).and_then(|path| image_with(rt, alloc, path, words));
    let renamed = match image {
        Some(image) => rename(names.as_mut_slice(), &image),
        None => None,
    };
    if renamed.is_none() {
        names.clear();
    }
    names
}
