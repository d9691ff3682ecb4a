//! The names that `--names` asks for, and in which form names are put.
use crate::beside::{
    Beside, Trouble, are_of, copy_of, gift_of_disk, is_missing, of_program, read_or_refuse,
    reported,
};
use ckrt_cli_names::{Form, Names, SIZE_LIMIT};
use ckrt_cli_words::{Job, ProfileForm};
use std::alloc::Global;
use std::fs::{File, Files};

/// The names of a file that was asked for.
fn names_in<R: Files<File = File>>(rt: &R, alloc: Global, path: &str) -> Result<Names, Trouble> {
    match read_or_refuse(rt, alloc, path, SIZE_LIMIT as u64)? {
        Some(bytes) => Ok(Names::parse(alloc, bytes)?),
        None => Err(Trouble::Missing),
    }
}

/// Whether names are of an image.
fn are_of_image<R: Files<File = File>>(
    rt: &R,
    alloc: Global,
    names: &Names,
    image: &str,
) -> Result<(), Trouble> {
    match read_or_refuse(rt, alloc, image, names.length() as u64)? {
        Some(bytes) if are_of(names, &bytes) => Ok(()),
        _ => Err(Trouble::OtherImage),
    }
}

/// The image that names have to be of: of a hunt, and of a drive that makes its disk. One that is missing the job itself refuses.
fn image_of<'a, R: Files<File = File>>(rt: &R, job: &Job<'a>) -> Option<&'a str> {
    let image = match job {
        Job::Hunt(job) => Some(job.image),
        Job::Drive(job) if is_missing(rt, job.disk) => job.image,
        _ => None,
    }?;
    if is_missing(rt, image) {
        None
    } else {
        Some(image)
    }
}

/// The disk whose program names have to be of, where it is there: of a look, and of a drive.
fn disk_of<'a>(job: &Job<'a>) -> Option<&'a str> {
    match job {
        Job::Inspect(job) => Some(job.disk),
        Job::Calls(job) => Some(job.disk),
        Job::Races(job) | Job::Check(job) => Some(job.stretch.disk),
        Job::Profile(job) => Some(job.stretch.disk),
        Job::Timeline(job) => Some(job.stretch.disk),
        Job::Drive(job) => Some(job.disk),
        _ => None,
    }
}

/// The names of a file, which have to be of the program of the job's disk.
fn names_for<R: Files<File = File>>(
    rt: &R,
    alloc: Global,
    job: &Job<'_>,
    path: &str,
) -> Result<Names, Trouble> {
    let names = names_in(rt, alloc, path)?;
    match disk_of(job) {
        Some(disk) => of_program(rt, alloc, names, disk),
        None => Ok(names),
    }
}

/// The names that the history of a drive gets, whose disk is there.
fn gift_of_history<R: Files<File = File>>(rt: &R, alloc: Global, job: &Job<'_>) -> Option<Vec<u8>> {
    match job {
        Job::Drive(job) => match job.history {
            Some(_) => gift_of_disk(rt, alloc, job.disk),
            None => None,
        },
        _ => None,
    }
}

/// The names of a file that was asked for, in place of those beside what a job reads. Disks that it makes get them. Of a drive they name
/// the end that is reported.
pub fn names_asked<'a, R: Files<File = File>>(
    rt: &R,
    alloc: Global,
    job: &Job<'a>,
    path: &str,
) -> Result<Beside<'a>, Trouble> {
    let printed = names_for(rt, alloc, job, path)?;
    let gift = match image_of(rt, job) {
        Some(image) => {
            are_of_image(rt, alloc, &printed, image)?;
            Some(copy_of(alloc, &printed)?)
        }
        None => gift_of_history(rt, alloc, job),
    };
    let names = Beside {
        printed,
        reported: Names::none(alloc),
        unused: None,
        gift,
    };
    match job {
        Job::Drive(_) => Ok(reported(alloc, names)),
        _ => Ok(names),
    }
}

/// In which form names are put into what a job prints.
pub fn form_of(job: &Job<'_>) -> Form {
    match job {
        Job::Profile(job) if job.form != ProfileForm::Table => Form::Frames,
        Job::Timeline(job) if job.json => Form::Events,
        Job::Timeline(_) => Form::Picture,
        _ => Form::Notes,
    }
}
