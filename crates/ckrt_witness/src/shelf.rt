//! Disks in memory as the sources of a run: a disk, an output, and an input or the file of a history; or an image and a disk to be made. Each of them
//! is there once.
ghost use Rattle.std.specs.Prelude.{◌≡◌, ◌≢◌, None, Some, true, false};
ghost use Rattle.ckrt_witness.specs.Shelf.{gives_of, image_of, named_by, openings_of};

use ckrt_cli_files::{Closes, FileFault, OpenedOutput, OutputReason, Sources, Unlengthened};
use ckrt_disk::{History, StoppingDisk};
use std::alloc::Global;

/// An opening that was noted.
#[derive(Clone, Copy)]
pub enum Noted<'a> {
    /// What has this path was opened.
    Opened(&'a str),
    /// It was refused, and this is why.
    Refused(&'a str, FileFault),
}

/// The file of a history, by its path.
#[derive(Drop)]
pub struct HistoryFile<'a> {
    /// Its path.
    pub path: &'a str,
    /// Its bytes, and behind them zeros.
    pub file: StoppingDisk,
    /// How many bytes it has.
    pub length: u64,
}

/// What a run gave back.
#[derive(Drop)]
pub struct GivenBack {
    /// The disk.
    pub disk: Option<StoppingDisk>,
    /// The output.
    pub output: Option<StoppingDisk>,
    /// The file of the history.
    pub history: Option<StoppingDisk>,
}

/// The disks, whatever path they are asked for by, but the history only by its own; what was given back last; and the record of all that was asked.
#[derive(Drop)]
pub struct Shelf<'a> {
    guest: Option<&'a [u8]>,
    filled: Option<StoppingDisk>,
    disk: Option<StoppingDisk>,
    output: Option<StoppingDisk>,
    input: Option<StoppingDisk>,
    path: Option<&'a str>,
    history: Option<StoppingDisk>,
    length: u64,
    closed: Option<StoppingDisk>,
    closed_output: Option<StoppingDisk>,
    closed_history: Option<StoppingDisk>,
    image: History<Noted<'a>>,
    disks: History<Noted<'a>>,
    outputs: History<Noted<'a>>,
    inputs: History<Noted<'a>>,
    making: History<Noted<'a>>,
    naming: History<Noted<'a>>,
    named: History<StoppingDisk>,
    closed_before: History<StoppingDisk>,
    closed_output_before: History<StoppingDisk>,
    histories: History<Noted<'a>>,
    closed_history_before: History<StoppingDisk>,
    closed_input: History<StoppingDisk>,
    lengthened: History<StoppingDisk>,
    abandoned: History<StoppingDisk>,
}

impl<'a> Shelf<'a> {
    /// Nothing.
    fn empty() -> Shelf<'a>
        ensures guest { result.guest ≡ None }
        ensures filled { result.filled ≡ None }
        ensures path { named_by result ≡ None }
    {
        Shelf {
            guest: None,
            filled: None,
            disk: None,
            output: None,
            input: None,
            path: None,
            history: None,
            length: 0,
            closed: None,
            closed_output: None,
            closed_history: None,
            image: History::new(),
            disks: History::new(),
            outputs: History::new(),
            inputs: History::new(),
            making: History::new(),
            naming: History::new(),
            named: History::new(),
            closed_before: History::new(),
            closed_output_before: History::new(),
            histories: History::new(),
            closed_history_before: History::new(),
            closed_input: History::new(),
            lengthened: History::new(),
            abandoned: History::new(),
        }
    }

    /// A disk and an output.
    fn with_output(disk: StoppingDisk, output: StoppingDisk) -> Shelf<'a>
        ensures disk { result.disk ≡ Some disk }
        ensures output { result.output ≡ Some output }
        ensures filled { result.filled ≡ None }
        ensures path { named_by result ≡ None }
    {
        let mut shelf = Shelf::empty();
        shelf.disk = Some(disk);
        shelf.output = Some(output);
        shelf
    }

    /// These three.
    pub fn new(disk: StoppingDisk, output: StoppingDisk, input: StoppingDisk) -> Shelf<'a>
        ensures disk { result.disk ≡ Some disk }
        ensures output { result.output ≡ Some output }
        ensures input { result.input ≡ Some input }
        ensures filled { result.filled ≡ None }
        ensures path { named_by result ≡ None }
    {
        let mut shelf = Shelf::with_output(disk, output);
        shelf.input = Some(input);
        shelf
    }

    /// A disk, an output, and the file of a history.
    pub fn with_history(
        disk: StoppingDisk,
        output: StoppingDisk,
        history: HistoryFile<'a>,
    ) -> Shelf<'a>
        ensures disk { result.disk ≡ Some disk }
        ensures output { result.output ≡ Some output }
        ensures history { result.history ≡ Some history.entry.file }
        ensures path { named_by result ≡ Some history.entry.path.now }
        ensures filled { result.filled ≡ None }
    {
        let mut shelf = Shelf::with_output(disk, output);
        shelf.path = Some(history.path);
        shelf.history = Some(history.file);
        shelf.length = history.length;
        shelf
    }

    /// An image, and a disk to be made with it.
    pub fn with_guest(guest: &'a [u8], disk: StoppingDisk) -> Shelf<'a>
        ensures guest { image_of result ≡ Some guest.now }
        ensures filled { result.filled ≡ Some disk }
    {
        let mut shelf = Shelf::empty();
        shelf.guest = Some(guest);
        shelf.filled = Some(disk);
        shelf
    }

    /// What was given back last.
    pub fn into_closed(self) -> GivenBack
        ensures disk { result.disk ≡ self.entry.closed }
        ensures output { result.output ≡ self.entry.closed_output }
        ensures history { result.history ≡ self.entry.closed_history }
    {
        GivenBack {
            disk: self.closed,
            output: self.closed_output,
            history: self.closed_history,
        }
    }

    /// Whether this is the path of the history.
    fn has_history(&self, path: &str) -> bool
        ensures is { result ≡ true → named_by self.now ≡ Some path.now }
        ensures other { result ≡ false → named_by self.now ≢ Some path.now }
    {
        match self.path {
            Some(name) => name == path,
            None => false,
        }
    }
}

impl<'a> Closes<StoppingDisk> for Shelf<'a> {
    ghost openings = { openings_of };

    fn close(&mut self, disk: StoppingDisk) {
        match self.closed.replace(disk) {
            Some(before) => {
                self.closed_before = self.closed_before.with(&before);
            }
            None => {}
        }
    }

    fn abandon(&mut self, disk: StoppingDisk) {
        self.abandoned = self.abandoned.with(&disk);
    }

    fn close_output(&mut self, output: StoppingDisk) {
        match self.closed_output.replace(output) {
            Some(before) => {
                self.closed_output_before = self.closed_output_before.with(&before);
            }
            None => {}
        }
    }

    fn close_history(&mut self, history: StoppingDisk) {
        match self.closed_history.replace(history) {
            Some(before) => {
                self.closed_history_before = self.closed_history_before.with(&before);
            }
            None => {}
        }
    }

    fn close_input(&mut self, input: StoppingDisk) {
        self.closed_input = self.closed_input.with(&input);
    }
}

impl<'a> Sources<'a, &'a [u8], StoppingDisk> for Shelf<'a> {
    ghost image_bytes = { λ s _. image_of s };

    ghost opens = { λ s _ disk. s.disk ≡ Some disk };

    ghost fills = { λ s _ _ disk. s.filled ≡ Some disk };

    ghost gives = { gives_of };

    fn open_image(&mut self, path: &'a str) -> Result<&'a [u8], FileFault> {
        match self.guest {
            Some(bytes) => {
                self.image = self.image.with(&Noted::Opened(path));
                Ok(bytes)
            }
            None => {
                self.image = self.image.with(&Noted::Refused(path, FileFault::NotFound));
                Err(FileFault::NotFound)
            }
        }
    }

    fn open_disk(&mut self, path: &'a str) -> Result<StoppingDisk, FileFault> {
        match self.disk.take() {
            Some(disk) => {
                self.disks = self.disks.with(&Noted::Opened(path));
                Ok(disk)
            }
            None => {
                self.disks = self.disks.with(&Noted::Refused(path, FileFault::InUse));
                Err(FileFault::InUse)
            }
        }
    }

    fn look_at_disk(&mut self, path: &'a str) -> Result<StoppingDisk, FileFault> {
        self.disks = self.disks.with(&Noted::Refused(path, FileFault::InUse));
        Err(FileFault::InUse)
    }

    fn nearest_snapshot(&self, _position: u64) -> Option<&'a str> {
        None
    }

    fn open_filled(&mut self, path: &'a str, _size: usize) -> Result<StoppingDisk, FileFault> {
        match self.filled.take() {
            Some(disk) => {
                self.disks = self.disks.with(&Noted::Opened(path));
                Ok(disk)
            }
            None => {
                self.disks = self.disks.with(&Noted::Refused(path, FileFault::InUse));
                Err(FileFault::InUse)
            }
        }
    }

    fn open_making(
        &mut self,
        _alloc: Global,
        path: &'a str,
        _size: usize,
    ) -> Result<StoppingDisk, FileFault> {
        self.making = self
            .making
            .with(&Noted::Refused(path, FileFault::StorageFull));
        Err(FileFault::StorageFull)
    }

    fn name_disk(&mut self, path: &'a str, disk: &StoppingDisk) -> Result<(), FileFault> {
        self.naming = self
            .naming
            .with(&Noted::Refused(path, FileFault::StorageFull));
        self.named = self.named.with(disk);
        Err(FileFault::StorageFull)
    }

    fn open_core(
        &mut self,
        _alloc: Global,
        path: &'a str,
        _size: usize,
    ) -> Result<StoppingDisk, FileFault> {
        self.making = self
            .making
            .with(&Noted::Refused(path, FileFault::StorageFull));
        Err(FileFault::StorageFull)
    }

    fn name_core(&mut self, path: &'a str, core: &StoppingDisk) -> Result<(), FileFault> {
        self.naming = self
            .naming
            .with(&Noted::Refused(path, FileFault::StorageFull));
        self.named = self.named.with(core);
        Err(FileFault::StorageFull)
    }

    fn open_output(&mut self, path: &'a str) -> Result<OpenedOutput<StoppingDisk>, FileFault> {
        if self.has_history(path) {
            self.outputs = self.outputs.with(&Noted::Refused(path, FileFault::InUse));
            return Err(FileFault::InUse);
        }
        match self.output.take() {
            Some(output) => {
                self.outputs = self.outputs.with(&Noted::Opened(path));
                Ok(OpenedOutput { output, length: 0 })
            }
            None => {
                self.outputs = self.outputs.with(&Noted::Refused(path, FileFault::InUse));
                Err(FileFault::InUse)
            }
        }
    }

    fn open_history(&mut self, path: &'a str) -> Result<OpenedOutput<StoppingDisk>, FileFault> {
        if !self.has_history(path) {
            self.histories = self
                .histories
                .with(&Noted::Refused(path, FileFault::NotFound));
            return Err(FileFault::NotFound);
        }
        match self.history.take() {
            Some(output) => {
                self.histories = self.histories.with(&Noted::Opened(path));
                Ok(OpenedOutput {
                    output,
                    length: self.length,
                })
            }
            None => {
                self.histories = self.histories.with(&Noted::Refused(path, FileFault::InUse));
                Err(FileFault::InUse)
            }
        }
    }

    fn open_input(&mut self, path: &'a str) -> Result<StoppingDisk, FileFault> {
        match self.input.take() {
            Some(input) => {
                self.inputs = self.inputs.with(&Noted::Opened(path));
                Ok(input)
            }
            None => {
                self.inputs = self.inputs.with(&Noted::Refused(path, FileFault::InUse));
                Err(FileFault::InUse)
            }
        }
    }

    fn look_at_place(&self, _alloc: Global, _path: &str) -> Result<(), FileFault> {
        Err(FileFault::StorageFull)
    }

    fn last_reason(&self) -> OutputReason {
        OutputReason::Other
    }

    fn lengthen(
        &mut self,
        disk: StoppingDisk,
        _size: usize,
    ) -> Result<StoppingDisk, Unlengthened<StoppingDisk>> {
        self.lengthened = self.lengthened.with(&disk);
        Err(Unlengthened {
            disk,
            fault: FileFault::StorageFull,
        })
    }
}
