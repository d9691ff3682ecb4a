//! Telling where the steps of what a disk has recorded went.
ghost use Rattle.std.specs.Prelude.{◌≡◌, ℕ, List, Option};
ghost use Rattle.ckrt_cli_words.specs.Jobs.{profiling_of};
ghost use Rattle.ckrt_cli_reports.specs.Outside.{outside};
ghost use Rattle.ckrt_look_profile.specs.Recorded.{IsProfileText};
ghost use Rattle.ckrt_cli.specs.Looking.{ProfilesPath, profile_form_of};

use crate::looking::look_path;
use ckrt_cli_files::Sources;
use ckrt_cli_reports::JobFault;
use ckrt_cli_words::{ProfileForm, ProfileJob};
use ckrt_disk::Disk;
use ckrt_events::Event;
use ckrt_inspect::InspectFault;
use ckrt_look_calls::Telling;
use ckrt_look_profile::{Form, write_profile};
use ckrt_machine::Machine;
use std::alloc::Global;
use std::io::{Read, Write};

/// Its profile, in a form.
#[derive(Drop)]
struct Profile {
    form: ProfileForm,
}

impl Telling for Profile {
    ghost use Rattle.ckrt_look_calls.specs.Stretches.{account};

    ghost Tells = { λ p. account (IsProfileText (profile_form_of p.form)) };

    fn tell<W: Write>(
        &self,
        alloc: Global,
        machine: &mut Machine,
        _count: u64,
        events: &[Event],
        out: &mut W,
    ) -> Result<(), InspectFault> {
        write_profile(alloc, machine, events, form_of(self.form), out)
    }
}

/// The form that the words ask for.
fn form_of(form: ProfileForm) -> Form
    ensures { result ≡ profile_form_of form }
{
    match form {
        ProfileForm::Table => Form::Table,
        ProfileForm::Folded => Form::Folded,
        ProfileForm::Callgrind => Form::Callgrind,
    }
}

/// Tells where the steps of what the disk of a path has recorded went: of all, or of the events behind so many and up to so many.
/// The disk is only read.
///
/// # Errors
///
/// Those of [`calls_path`](crate::calls_path).
pub fn profile_path<'a, I: Read, D: Disk, S: Sources<'a, I, D>, W: Write>(
    alloc: Global,
    job: &ProfileJob<'a>,
    sources: &mut S,
    writer: &mut W,
) -> Result<(), JobFault>
    ensures profiles { (left : Option (List ℕ))
        → ProfilesPath D.Disk (S.opens sources.old job.now.stretch.disk.now) (profiling_of job.now)
        (outside (S.openings sources.old) (W.contents writer.old) left)
        (outside (S.openings sources.new) (W.contents writer.new) left) result }
{
    let profile = Profile { form: job.form };
    look_path::<I, D, S, Profile, W>(alloc, &job.stretch, &profile, sources, writer)
}
