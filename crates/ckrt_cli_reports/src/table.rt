//! A file that has the table of a hunt while it runs.
ghost use Rattle.std.specs.Prelude.{◌≡◌, OnOk};
ghost use Rattle.ckrt_hunt_schedules.specs.Table.{table_text};

use crate::replaced::{Content, Replaced};
use ckrt_cli_files::FileFault;
use ckrt_hunt_schedules::{Asked, Look, Outcomes, Seeds, Shape, TableWatch, Tally, write_table};
use std::alloc::Global;
use std::fs::{File, Files};

/// The bytes of a table of a few outcomes. One that is longer takes more.
const ROOM: usize = 65_536;

/// What the hunt was asked for, so that its table can be told.
#[derive(Drop)]
struct HuntAsked {
    image: String,
    shape: Shape,
    first: u64,
    may_end: bool,
    input: Option<String>,
    all_rows: bool,
}

/// The same text in memory of its own, where there is one; nothing where memory is refused.
fn own(alloc: Global, text: Option<&str>) -> Option<Option<String>> {
    match text {
        Some(text) => Some(Some(format!(in alloc; "{}", text).ok()?)),
        None => Some(None),
    }
}

impl HuntAsked {
    /// What was asked for; nothing where memory is refused.
    fn of(alloc: Global, asked: &Asked<'_>) -> Option<HuntAsked> {
        Some(HuntAsked {
            image: format!(in alloc; "{}", asked.image).ok()?,
            shape: asked.shape,
            first: asked.seeds.first,
            may_end: asked.may_end,
            input: own(alloc, asked.input)?,
            all_rows: asked.all_rows,
        })
    }

    /// The same of the seeds that were run.
    fn with(&self, seeds: Seeds) -> Asked<'_> {
        let input = match &self.input {
            Some(path) => Some(path.as_str()),
            None => None,
        };
        Asked {
            image: self.image.as_str(),
            shape: self.shape,
            seeds,
            may_end: self.may_end,
            input,
            look: Look::Outcomes,
            room: 0,
            all_rows: self.all_rows,
        }
    }
}

/// The file of a table, and the other paths of its hunt; nothing where memory is refused.
fn file_of(alloc: Global, watch: &TableWatch<'_>) -> Option<Replaced> {
    Replaced::new(alloc, Content::Table, watch.path)?
        .beside(alloc, watch.disk, FileFault::IsDisk)?
        .beside(alloc, watch.asked.input, FileFault::IsInput)?
        .beside(alloc, Some(watch.asked.image), FileFault::IsImage)
}

/// Puts the table of what seeds came to into a text, in place of what that has.
fn set_table(text: &mut Vec<u8>, asked: &Asked<'_>, outcomes: &Outcomes) -> Result<(), FileFault>
    ensures { OnOk result (text.new.items ≡ table_text asked.now outcomes.now) }
{
    text.clear();
    match write_table(text, asked, outcomes) {
        Ok(()) => Ok(()),
        Err(_) => Err(FileFault::OutOfMemory),
    }
}

/// A file that has the table of a hunt, of the seeds that were run so far.
#[derive(Drop)]
pub(crate) struct TableFile {
    file: Replaced,
    asked: HuntAsked,
    /// The room for copies of the outcomes so far.
    outcomes: Outcomes,
    text: Vec<u8>,
}

impl TableFile {
    /// The table of this hunt, which isn't written yet; nothing where memory is refused.
    pub(crate) fn new(alloc: Global, watch: &TableWatch<'_>) -> Option<TableFile> {
        Some(TableFile {
            file: file_of(alloc, watch)?,
            asked: HuntAsked::of(alloc, &watch.asked)?,
            outcomes: Outcomes::new(alloc).ok()?,
            text: Vec::with_capacity(alloc, ROOM).ok()?,
        })
    }

    /// Its path.
    pub(crate) fn path(&self) -> &str {
        self.file.path()
    }

    /// That it can be written.
    pub(crate) fn expect_free<R: Files<File = File>>(&self, rt: &R) -> Result<(), FileFault> {
        self.file.expect_free(rt)
    }

    /// Writes the table of these seeds. Where that fails the file stays as it was.
    pub(crate) fn write<R: Files<File = File>>(
        &mut self,
        rt: &R,
        seeds: Seeds,
        outcomes: &Outcomes,
    ) -> Result<(), FileFault> {
        set_table(&mut self.text, &self.asked.with(seeds), outcomes)?;
        self.file.replace(rt, self.text.as_slice())
    }

    /// Writes the table of the seeds up to this one. Where that fails the file stays as it was.
    pub(crate) fn write_so_far<R: Files<File = File>>(
        &mut self,
        rt: &R,
        last: u64,
        tally: &Tally,
    ) -> Result<(), FileFault> {
        let Some(seeds) = Seeds::range_of(self.asked.first, last) else {
            return Ok(());
        };
        self.outcomes.copy(tally);
        set_table(&mut self.text, &self.asked.with(seeds), &self.outcomes)?;
        self.file.replace(rt, self.text.as_slice())
    }
}
