//! Where jobs get their images, disks, inputs and outputs from.
ghost use Rattle.std.specs.Prelude.{◌≡◌, ◌≤◌, ℕ, List, Option, Some, IfOk, IfErr};
ghost use Rattle.ckrt_cli_files.specs.Openings.{Openings, opening_of, with_abandoned, with_closed, with_closed_history, with_closed_input, with_closed_output, with_disk, with_history, with_image, with_input, with_lengthened, with_making, with_named, with_output};
ghost use Rattle.ckrt_cli_files.specs.Sources.{Gives, GivesNoMore, GivesSame};

use crate::file::FileFault;
use crate::output::OpenedOutput;
use crate::reason::OutputReason;
use ckrt_disk::Disk;
use std::alloc::Global;
use std::io::Read;

/// A disk that couldn't be made longer, as it was, and why.
#[derive(Drop)]
pub struct Unlengthened<D> {
    pub disk: D,
    pub fault: FileFault,
}

/// Where the jobs give disks, inputs, outputs and histories back. Nothing is known of these but that they may be let go: so whoever takes them
/// back can't write to them.
pub trait Closes<D> {
    /// How all images, disks, inputs, outputs and histories were opened, which disks were given a name or made longer, and which
    /// disks, inputs, outputs and histories were given back.
    ghost openings: { Self → Openings D };

    /// Takes a disk back.
    fn close(&mut self, disk: D)
        ensures closed { openings self.new ≡ with_closed (openings self.old) disk };

    /// Takes a disk back that wasn't made: where a file was made for it, that goes.
    fn abandon(&mut self, disk: D)
        ensures abandoned { openings self.new ≡ with_abandoned (openings self.old) disk };

    /// Takes an output back.
    fn close_output(&mut self, output: D)
        ensures closed { openings self.new ≡ with_closed_output (openings self.old) output };

    /// Takes an input back.
    fn close_input(&mut self, input: D)
        ensures closed { openings self.new ≡ with_closed_input (openings self.old) (Some input) };

    /// Takes a history back.
    fn close_history(&mut self, history: D)
        ensures closed { openings self.new
            ≡ with_closed_history (openings self.old) (Some history) };
}

/// Where the jobs get their images and their disks from, by path.
pub trait Sources<'a, I: Read, D: Disk>: Closes<D> {
    /// The bytes of the image of a path, where they are known.
    ghost image_bytes: { Self → List ℕ → Option (List ℕ) };

    /// The disks that a path may stand for.
    ghost opens: { Self → List ℕ → D → Type 0 };

    /// The disks that it may stand for once what is shorter than that many bytes is filled up to them, under its own name or as a
    /// disk in the making.
    ghost fills: { Self → List ℕ → ℕ → D → Type 0 };

    /// What else they may give: outputs and inputs of paths, and disks that are made longer.
    ghost gives: { Self → Gives D };

    /// A reader of an image, at its beginning.
    fn open_image(&mut self, path: &'a str) -> Result<I, FileFault>
        ensures bytes { IfOk result (λ reader. I.remaining reader ≡ image_bytes self.old path.now) }
        ensures asked { Self.openings self.new
            ≡ with_image (Self.openings self.old) (opening_of path.now result) }
        ensures same { GivesSame (image_bytes self.old) (image_bytes self.new) (fills self.old)
            (fills self.new) (gives self.old) (gives self.new) };

    /// The disk of a path.
    fn open_disk(&mut self, path: &'a str) -> Result<D, FileFault>
        ensures disk { IfOk result (opens self.old path.now) }
        ensures asked { Self.openings self.new
            ≡ with_disk (Self.openings self.old) (opening_of path.now result) }
        ensures same { GivesSame (image_bytes self.old) (image_bytes self.new) (fills self.old)
            (fills self.new) (gives self.old) (gives self.new) };

    /// The disk of a path, to be looked at only.
    fn look_at_disk(&mut self, path: &'a str) -> Result<D, FileFault>
        ensures disk { IfOk result (opens self.old path.now) }
        ensures asked { Self.openings self.new
            ≡ with_disk (Self.openings self.old) (opening_of path.now result) }
        ensures same { GivesSame (image_bytes self.old) (image_bytes self.new) (fills self.old)
            (fills self.new) (gives self.old) (gives self.new) };

    /// The path of the nearest snapshot that is known of the history that is looked at, behind no more events than a position, if there is
    /// one. That it is a snapshot shows once it is read, so no clause says it.
    fn nearest_snapshot(&self, position: u64) -> Option<&'a str>;

    /// The disk of a path, which is made where it is missing. What is shorter than `size` bytes is filled with zero bytes up
    /// to them first; nothing else is changed.
    fn open_filled(&mut self, path: &'a str, size: usize) -> Result<D, FileFault>
        ensures disk { IfOk result (fills self.old path.now size) }
        ensures asked { Self.openings self.new
            ≡ with_disk (Self.openings self.old) (opening_of path.now result) };

    /// A disk in the making, for a path that nothing has: a file beside it, made anew with that many zero bytes. What lies there
    /// and is no disk in the making is refused.
    fn open_making(&mut self, alloc: Global, path: &'a str, size: usize) -> Result<D, FileFault>
        ensures disk { IfOk result (fills self.old path.now size) }
        ensures asked { Self.openings self.new
            ≡ with_making (Self.openings self.old) (opening_of path.now result) }
        ensures same { GivesSame (image_bytes self.old) (image_bytes self.new) (fills self.old)
            (fills self.new) (gives self.old) (gives self.new) };

    /// Gives a disk in the making the path that it was made for, if nothing has that yet. Its name is durable then.
    fn name_disk(&mut self, path: &'a str, disk: &D) -> Result<(), FileFault>
        ensures named { Self.openings self.new
            ≡ with_named (Self.openings self.old) (opening_of path.now result) disk.now }
        ensures same { GivesSame (image_bytes self.old) (image_bytes self.new) (fills self.old)
            (fills self.new) (gives self.old) (gives self.new) };

    /// A core in the making, for a path that nothing has, or a core, or an empty file: a file beside it, made anew with that many
    /// zero bytes. What else has the path is refused, the disk too, and so is what lies there and is no core in the making.
    fn open_core(&mut self, alloc: Global, path: &'a str, size: usize) -> Result<D, FileFault>
        ensures core { IfOk result (fills self.old path.now size) }
        ensures asked { Self.openings self.new
            ≡ with_making (Self.openings self.old) (opening_of path.now result) };

    /// Gives a core in the making the path that it was made for, in place of what may have that. Its name is durable then.
    fn name_core(&mut self, path: &'a str, core: &D) -> Result<(), FileFault>
        ensures named { Self.openings self.new
            ≡ with_named (Self.openings self.old) (opening_of path.now result) core.now };

    /// The output of a path, which is made where it is missing, and never shortened: what it holds stays, and bytes after
    /// its end are zeros. It comes with the length of its file.
    fn open_output(&mut self, path: &'a str) -> Result<OpenedOutput<D>, FileFault>
        ensures output { IfOk result ((gives self.old).Outputs path.now) }
        ensures asked { Self.openings self.new
            ≡ with_output (Self.openings self.old) (opening_of path.now result) };

    /// The file of a history, as [`open_output`](Sources::open_output) opens an output. One that is empty, or has fewer than 72 bytes, all
    /// zeros, gets zeros up to them, so that its first fields can be read.
    fn open_history(&mut self, path: &'a str) -> Result<OpenedOutput<D>, FileFault>
        ensures output { IfOk result ((gives self.old).Outputs path.now) }
        ensures asked { Self.openings self.new
            ≡ with_history (Self.openings self.old) (opening_of path.now result) }
        ensures same { GivesNoMore (gives self.old) (gives self.new) };

    /// The input of a path, which is only read. What can't be read by offset, as a pipe, is refused.
    fn open_input(&mut self, path: &'a str) -> Result<D, FileFault>
        ensures input { IfOk result ((gives self.old).Inputs path.now) }
        ensures asked { Self.openings self.new
            ≡ with_input (Self.openings self.old) (opening_of path.now result) }
        ensures same { GivesNoMore (gives self.old) (gives self.new) };

    /// That a disk can be made for a path, as far as it can be seen before: its folder is there and takes a file, and nothing has the path.
    /// To see that, a file is made beside it and removed; what is there stays as it is. Of files no clause can say this.
    fn look_at_place(&self, alloc: Global, path: &str) -> Result<(), FileFault>;

    /// Why the last call of an output that failed did so, where nothing else was asked for meanwhile. Of what was opened no clause can
    /// say this.
    fn last_reason(&self) -> OutputReason;

    /// A disk that was opened, made that many bytes long with zero bytes after its own, durably. Its own bytes stay.
    fn lengthen(&mut self, disk: D, size: usize) -> Result<D, Unlengthened<D>>
        ensures longer { IfOk result ((gives self.old).Longer disk size) }
        ensures long { IfOk result (λ it. size ≤ D.size it) }
        ensures kept { IfErr result (λ u. u.disk ≡ disk) }
        ensures asked { Self.openings self.new ≡ with_lengthened (Self.openings self.old) disk }
        ensures same { GivesNoMore (gives self.old) (gives self.new) };
}
