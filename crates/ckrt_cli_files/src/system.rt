//! Disks and images that are files of the system.
ghost use Rattle.std.specs.Prelude.{◌≡◌, ◌≤◌, ◌∷◌, [], None, IfOk};
ghost use Rattle.ckrt_cli_files.specs.Files.{openings_of, opened_by};
ghost use Rattle.ckrt_cli_files.specs.Openings.{unopened};
ghost use Rattle.ckrt_cli_files.specs.Real.{IsDiskOf, IsFilledOf, IsOpenedAs, IsOutputOf, real_gives};

use crate::core_paths::{open_core_file, replace_core};
use crate::file::{FileFault, FileOpening};
use crate::files::{
    LookedAt, beside, disk_looked_at, disk_of, give_name, longer_disk, look_at_place,
    open_disk_file, open_filled_file, open_making_file, open_read, open_system_history,
    open_system_input, open_system_output, open_to_look, remove,
};
use crate::identity::{FileId, leads_to};
use crate::image_reader::{ImageReader, with_words};
use crate::image_words::ProgramWords;
use crate::output::OpenedOutput;
use crate::reason::OutputReason;
use crate::snapshot_path::nearest_of;
use crate::sources::{Closes, Sources, Unlengthened};
use crate::told::RealDisk;
use ckrt_disk::{Calls, Disk, FileUse, History, Holds};
use std::alloc::Global;
use std::cell::Cell;
use std::fs::{File, Files};

/// A file that was made, and goes where it isn't formatted.
#[derive(Drop)]
enum MadeFile<'a> {
    /// That of a path.
    Itself(&'a str),
    /// A disk or a core in the making, by its own name.
    Beside(String),
}

impl<'a> MadeFile<'a> {
    /// Its path.
    fn path(&self) -> &str {
        match self {
            MadeFile::Itself(path) => path,
            MadeFile::Beside(name) => name.as_str(),
        }
    }
}

/// The files of the system, with the record of what they were asked for and of all files that were opened, here and in runs before.
/// Neither takes memory. A disk or an output that is
/// given back is closed.
#[derive(Drop)]
pub struct SystemSources<'a, R, D> {
    rt: &'a R,
    /// Where an output notes why it failed.
    why: &'a Cell<OutputReason>,
    /// What each image gets.
    words: Option<(Global, ProgramWords<'a>)>,
    opened: Calls<FileUse>,
    image: History<FileOpening<'a>>,
    disk: History<FileOpening<'a>>,
    output: History<FileOpening<'a>>,
    input: History<FileOpening<'a>>,
    history: History<FileOpening<'a>>,
    making: History<FileOpening<'a>>,
    naming: History<FileOpening<'a>>,
    named: History<D>,
    closed: History<D>,
    closed_output: History<D>,
    closed_input: History<D>,
    closed_history: History<D>,
    lengthened: History<D>,
    abandoned: History<D>,
    /// Which file the image is, where one was opened.
    image_id: Option<FileId>,
    /// Which one the disk is.
    disk_id: Option<FileId>,
    /// The file of the disk once more, by which it can be made longer.
    disk_file: Option<File>,
    /// Which file the input is.
    input_id: Option<FileId>,
    /// And which one the history is.
    history_id: Option<FileId>,
    /// What lies beside the file that the job is about: of a drive the path that its output will have, and of a look the paths of snapshots, a line
    /// each. No job has both, and with a field more the prover compares types for too long.
    beside: Option<&'a str>,
    /// The file that was made for a disk that isn't formatted yet, or for a core that isn't written.
    made: Option<MadeFile<'a>>,
}

impl<'a, R, D> SystemSources<'a, R, D> {
    /// The files of the system, of which none was asked for, where these were opened in runs before. An output of theirs notes there
    /// why it failed.
    pub fn new(
        rt: &'a R,
        why: &'a Cell<OutputReason>,
        before: Calls<FileUse>,
    ) -> SystemSources<'a, R, D>
        ensures openings { openings_of result ≡ unopened }
        ensures opened { opened_by result ≡ before.made }
    {
        SystemSources {
            rt,
            why,
            words: None,
            opened: before,
            image: History::new(),
            disk: History::new(),
            output: History::new(),
            input: History::new(),
            history: History::new(),
            making: History::new(),
            naming: History::new(),
            named: History::new(),
            closed: History::new(),
            closed_output: History::new(),
            closed_input: History::new(),
            closed_history: History::new(),
            lengthened: History::new(),
            abandoned: History::new(),
            image_id: None,
            disk_id: None,
            disk_file: None,
            input_id: None,
            history_id: None,
            beside: None,
            made: None,
        }
    }

    /// The same files, of which each image gets these words, if there are any.
    pub fn with_words(
        mut self,
        alloc: Global,
        words: Option<ProgramWords<'a>>,
    ) -> SystemSources<'a, R, D>
        ensures openings { openings_of result ≡ openings_of self.entry }
        ensures opened { opened_by result ≡ opened_by self.entry }
    {
        self.words = match words {
            Some(words) => Some((alloc, words)),
            None => None,
        };
        self
    }

    /// The same files, of which no history is begun in the output of this path, if there is one.
    pub fn with_output(mut self, path: Option<&'a str>) -> SystemSources<'a, R, D>
        ensures openings { openings_of result ≡ openings_of self.entry }
        ensures opened { opened_by result ≡ opened_by self.entry }
    {
        self.beside = path;
        self
    }

    /// The same files, where these are the paths of the snapshots of the history that is looked at, a line each.
    pub fn with_snapshots(mut self, paths: &'a str) -> SystemSources<'a, R, D>
        ensures openings { openings_of result ≡ openings_of self.entry }
        ensures opened { opened_by result ≡ opened_by self.entry }
    {
        self.beside = Some(paths);
        self
    }
}

impl<'a, R: Files<File = File>, D> SystemSources<'a, R, D> {
    /// Notes that a file was opened as this, of this path: all openings up to it.
    fn note(&mut self, what: FileUse, path: &str) -> Calls<FileUse>
        ensures openings { openings_of self.new ≡ openings_of self.old }
        ensures noted { result.made ≡ (what, path.now) ∷ opened_by self.old }
        ensures opened { opened_by self.new ≡ (what, path.now) ∷ opened_by self.old }
    {
        let noted = self.opened.with(&what, path.as_bytes());
        self.opened = self.opened.with(&what, path.as_bytes());
        noted
    }

    /// Remembers which file a disk is, and the file itself.
    fn remember(&mut self, file: &File)
        ensures { openings_of self.new ≡ openings_of self.old }
    {
        self.disk_id = match file.metadata() {
            Ok(told) => Some(FileId::of(&told)),
            Err(_) => None,
        };
        self.disk_file = match file.try_clone() {
            Ok(again) => Some(again),
            Err(_) => None,
        };
    }

    /// Whether a path leads to the disk that is open.
    fn is_disk(&self, path: &str) -> bool {
        leads_to(self.rt, path, self.disk_id)
    }

    /// Why a path can't be an output or a history: it leads to the image, the disk, the input or the history that is open.
    fn taken_for(&self, path: &str) -> Result<(), FileFault> {
        if leads_to(self.rt, path, self.disk_id) {
            return Err(FileFault::IsDisk);
        }
        if leads_to(self.rt, path, self.input_id) {
            return Err(FileFault::IsInput);
        }
        if leads_to(self.rt, path, self.image_id) {
            return Err(FileFault::IsImage);
        }
        if leads_to(self.rt, path, self.history_id) {
            return Err(FileFault::IsHistory);
        }
        Ok(())
    }

    /// The image of a path, with its words. Its file is remembered.
    fn open_image_file(&mut self, path: &str) -> Result<ImageReader, FileFault>
        ensures { openings_of self.new ≡ openings_of self.old }
    {
        let file = open_read(self.rt, path)?;
        self.image_id = match file.metadata() {
            Ok(told) => Some(FileId::of(&told)),
            Err(_) => None,
        };
        match self.words {
            Some((alloc, words)) => with_words(alloc, file, &words),
            None => Ok(ImageReader::File(file)),
        }
    }

    /// The file of a disk, which is remembered.
    fn open_disk_file(&mut self, path: &str) -> Result<File, FileFault>
        ensures { openings_of self.new ≡ openings_of self.old }
    {
        let file = open_disk_file(self.rt, path)?;
        self.remember(&file);
        Ok(file)
    }

    /// The file of a disk that is looked at. The first one is remembered: a second one is a snapshot of it.
    fn look_at_file(&mut self, path: &str) -> Result<LookedAt, FileFault>
        ensures { openings_of self.new ≡ openings_of self.old }
    {
        let looked = open_to_look(self.rt, path)?;
        if self.disk_id.is_none() {
            self.remember(&looked.file);
        }
        Ok(looked)
    }

    /// The file of a disk that is made where it is missing, and filled up to that many bytes. The image is never taken for it.
    fn open_filled_file(&mut self, path: &'a str, size: usize) -> Result<File, FileFault>
        ensures { openings_of self.new ≡ openings_of self.old }
    {
        if leads_to(self.rt, path, self.image_id) {
            return Err(FileFault::IsImage);
        }
        let claimed = open_filled_file(self.rt, path, size)?;
        if claimed.is_new {
            self.made = Some(MadeFile::Itself(path));
        }
        Ok(claimed.file)
    }

    /// The file of a disk in the making, which is remembered.
    fn open_making_file(
        &mut self,
        alloc: Global,
        path: &str,
        size: usize,
    ) -> Result<File, FileFault>
        ensures { openings_of self.new ≡ openings_of self.old }
    {
        let name = beside(alloc, path)?;
        let file = open_making_file(self.rt, alloc, path, &name, size)?;
        self.remember(&file);
        self.made = Some(MadeFile::Beside(name));
        Ok(file)
    }

    /// Gives the disk in the making a path.
    fn give_name(&mut self, path: &str) -> Result<(), FileFault>
        ensures { openings_of self.new ≡ openings_of self.old }
    {
        let named = match &self.made {
            Some(made) => give_name(self.rt, made.path(), path),
            None => Err(FileFault::Other),
        };
        if named.is_ok() {
            self.made = None;
        }
        named
    }

    /// The file of a core in the making. The disk is never taken for a core.
    fn open_core_file(&mut self, alloc: Global, path: &str, size: usize) -> Result<File, FileFault>
        ensures { openings_of self.new ≡ openings_of self.old }
    {
        if self.is_disk(path) {
            return Err(FileFault::IsDisk);
        }
        let name = beside(alloc, path)?;
        let file = open_core_file(self.rt, path, &name, size)?;
        self.made = Some(MadeFile::Beside(name));
        Ok(file)
    }

    /// Gives the core in the making a path.
    fn give_core_name(&mut self, path: &str) -> Result<(), FileFault>
        ensures { openings_of self.new ≡ openings_of self.old }
    {
        let named = match &self.made {
            Some(made) => replace_core(self.rt, made.path(), path),
            None => Err(FileFault::Other),
        };
        if named.is_ok() {
            self.made = None;
        }
        named
    }

    /// Removes what was made.
    fn remove_made(&mut self)
        ensures { openings_of self.new ≡ openings_of self.old }
    {
        if let Some(made) = &self.made {
            remove(self.rt, made.path());
        }
        self.made = None;
    }
}

impl<'a, R: Files<File = File>, H: Holds> SystemSources<'a, R, RealDisk<'a, H>> {
    /// The disk of a file, where that was opened, as this and of this path.
    fn disk_opened(
        &mut self,
        file: Result<File, FileFault>,
        what: FileUse,
        path: &str,
    ) -> Result<RealDisk<'a, H>, FileFault>
        ensures openings { openings_of self.new ≡ openings_of self.old }
        ensures disk { IfOk result (IsOpenedAs ⟦<RealDisk<'a, H> as Disk>⟧ what path.now) }
    {
        let file = file?;
        let noted = self.note(what, path);
        disk_of(file, noted)
    }

    /// The disk of a file that is looked at, where that was opened, of this path.
    fn disk_looked_at(
        &mut self,
        looked: Result<LookedAt, FileFault>,
        path: &str,
    ) -> Result<RealDisk<'a, H>, FileFault>
        ensures openings { openings_of self.new ≡ openings_of self.old }
        ensures disk { IfOk result
            (IsOpenedAs ⟦<RealDisk<'a, H> as Disk>⟧ FileUse.Disk path.now) }
    {
        let looked = looked?;
        let noted = self.note(FileUse::Disk, path);
        disk_looked_at(looked, noted)
    }

    /// The disk that is open, of that many bytes.
    fn longer(&mut self, size: usize) -> Result<RealDisk<'a, H>, FileFault>
        ensures openings { openings_of self.new ≡ openings_of self.old }
        ensures longer { IfOk result
            (IsOpenedAs ⟦<RealDisk<'a, H> as Disk>⟧ FileUse.Longer []) }
        ensures long { IfOk result (λ disk. size ≤ ⟦<RealDisk<'a, H> as Disk>⟧.size disk) }
    {
        let opened = self.note(FileUse::Longer, "");
        match &self.disk_file {
            Some(file) => longer_disk(file, opened, size),
            None => Err(FileFault::Other),
        }
    }

    /// The input of a path, which is remembered. The disk is never taken for it.
    fn open_input_file(&mut self, path: &str) -> Result<RealDisk<'a, H>, FileFault>
        ensures openings { openings_of self.new ≡ openings_of self.old }
        ensures input { IfOk result
            (IsOpenedAs ⟦<RealDisk<'a, H> as Disk>⟧ FileUse.Input path.now) }
    {
        if self.is_disk(path) {
            return Err(FileFault::IsDisk);
        }
        let opened = self.note(FileUse::Input, path);
        let input = open_system_input(self.rt, path, opened)?;
        self.input_id = FileId::at(self.rt, path);
        Ok(input)
    }

    /// The output of a path. The image, the disk, the input and the history are never taken for it.
    fn open_output_file(&mut self, path: &str) -> Result<OpenedOutput<RealDisk<'a, H>>, FileFault>
        ensures openings { openings_of self.new ≡ openings_of self.old }
        ensures output { IfOk result (IsOutputOf ⟦<RealDisk<'a, H> as Disk>⟧ path.now) }
    {
        self.taken_for(path)?;
        let opened = self.note(FileUse::Output, path);
        open_system_output(self.rt, path, opened, self.why)
    }

    /// The file of the history of a path, which is remembered. The image, the disk, the input and the output are never taken for it.
    fn open_history_file(&mut self, path: &str) -> Result<OpenedOutput<RealDisk<'a, H>>, FileFault>
        ensures openings { openings_of self.new ≡ openings_of self.old }
        ensures output { IfOk result (IsOutputOf ⟦<RealDisk<'a, H> as Disk>⟧ path.now) }
    {
        self.taken_for(path)?;
        let opened = self.note(FileUse::Output, path);
        let history = open_system_history(self.rt, path, self.beside, opened, self.why)?;
        self.history_id = FileId::at(self.rt, path);
        Ok(history)
    }
}

impl<'a, R: Files<File = File>, D: Drop> Closes<D> for SystemSources<'a, R, D> {
    ghost openings = { openings_of };

    fn close(&mut self, disk: D) {
        self.made = None;
        self.disk_file = None;
        self.closed = self.closed.with(&disk);
    }

    fn abandon(&mut self, disk: D) {
        self.remove_made();
        self.abandoned = self.abandoned.with(&disk);
    }

    fn close_output(&mut self, output: D) {
        self.closed_output = self.closed_output.with(&output);
    }

    fn close_input(&mut self, input: D) {
        self.closed_input = self.closed_input.with(&input);
    }

    fn close_history(&mut self, history: D) {
        self.closed_history = self.closed_history.with(&history);
    }
}

impl<'a, R: Files<File = File>, H: Holds> Sources<'a, ImageReader, RealDisk<'a, H>>
    for SystemSources<'a, R, RealDisk<'a, H>> {
    ghost image_bytes = { λ _ _. None };

    ghost opens = { λ _ path disk. IsDiskOf ⟦<RealDisk<'a, H> as Disk>⟧ path disk };

    ghost fills = { λ _ path _ disk. IsFilledOf ⟦<RealDisk<'a, H> as Disk>⟧ path disk };

    ghost gives = { λ _. real_gives ⟦<RealDisk<'a, H> as Disk>⟧ };

    fn open_image(&mut self, path: &'a str) -> Result<ImageReader, FileFault> {
        let opened = self.open_image_file(path);
        self.image = self.image.with(&FileOpening::of(path, &opened));
        opened
    }

    fn open_disk(&mut self, path: &'a str) -> Result<RealDisk<'a, H>, FileFault> {
        let file = self.open_disk_file(path);
        let opened = self.disk_opened(file, FileUse::Disk, path);
        self.disk = self.disk.with(&FileOpening::of(path, &opened));
        opened
    }

    fn look_at_disk(&mut self, path: &'a str) -> Result<RealDisk<'a, H>, FileFault> {
        let looked = self.look_at_file(path);
        let opened = self.disk_looked_at(looked, path);
        self.disk = self.disk.with(&FileOpening::of(path, &opened));
        opened
    }

    fn nearest_snapshot(&self, position: u64) -> Option<&'a str> {
        nearest_of(self.beside?, position)
    }

    fn open_filled(&mut self, path: &'a str, size: usize) -> Result<RealDisk<'a, H>, FileFault> {
        let file = self.open_filled_file(path, size);
        let opened = self.disk_opened(file, FileUse::Filled, path);
        self.disk = self.disk.with(&FileOpening::of(path, &opened));
        opened
    }

    fn open_making(
        &mut self,
        alloc: Global,
        path: &'a str,
        size: usize,
    ) -> Result<RealDisk<'a, H>, FileFault> {
        let file = self.open_making_file(alloc, path, size);
        let opened = self.disk_opened(file, FileUse::Filled, path);
        self.making = self.making.with(&FileOpening::of(path, &opened));
        opened
    }

    fn name_disk(&mut self, path: &'a str, disk: &RealDisk<'a, H>) -> Result<(), FileFault> {
        let named = self.give_name(path);
        self.naming = self.naming.with(&FileOpening::of(path, &named));
        self.named = self.named.with(disk);
        named
    }

    fn open_core(
        &mut self,
        alloc: Global,
        path: &'a str,
        size: usize,
    ) -> Result<RealDisk<'a, H>, FileFault> {
        let file = self.open_core_file(alloc, path, size);
        let opened = self.disk_opened(file, FileUse::Filled, path);
        self.making = self.making.with(&FileOpening::of(path, &opened));
        opened
    }

    fn name_core(&mut self, path: &'a str, core: &RealDisk<'a, H>) -> Result<(), FileFault> {
        let named = self.give_core_name(path);
        self.naming = self.naming.with(&FileOpening::of(path, &named));
        self.named = self.named.with(core);
        named
    }

    fn open_output(&mut self, path: &'a str) -> Result<OpenedOutput<RealDisk<'a, H>>, FileFault> {
        let opened = self.open_output_file(path);
        self.output = self.output.with(&FileOpening::of(path, &opened));
        opened
    }

    fn open_history(&mut self, path: &'a str) -> Result<OpenedOutput<RealDisk<'a, H>>, FileFault> {
        let opened = self.open_history_file(path);
        self.history = self.history.with(&FileOpening::of(path, &opened));
        opened
    }

    fn open_input(&mut self, path: &'a str) -> Result<RealDisk<'a, H>, FileFault> {
        let opened = self.open_input_file(path);
        self.input = self.input.with(&FileOpening::of(path, &opened));
        opened
    }

    fn look_at_place(&self, alloc: Global, path: &str) -> Result<(), FileFault> {
        let name = beside(alloc, path)?;
        look_at_place(self.rt, alloc, path, &name)
    }

    fn last_reason(&self) -> OutputReason {
        self.why.get()
    }

    fn lengthen(
        &mut self,
        disk: RealDisk<'a, H>,
        size: usize,
    ) -> Result<RealDisk<'a, H>, Unlengthened<RealDisk<'a, H>>> {
        self.lengthened = self.lengthened.with(&disk);
        match self.longer(size) {
            Ok(longer) => Ok(longer),
            Err(fault) => Err(Unlengthened { disk, fault }),
        }
    }
}
