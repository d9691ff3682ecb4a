//! Runs that are made by their words, as the promise of many drives from the words on speaks of them.
ghost use Rattle.std.specs.Prelude.{ℕ, List, []};
ghost use Rattle.ckrt_stored.specs.Programs.{Program};
ghost use Rattle.ckrt_witness.specs.Runs.{RanTwice, RunsWitness};

use ckrt_cli_files::Sources;
use ckrt_disk::Disk;
use ckrt_drive::StreamOutput;
use std::io::{Read, Write};

/// Two runs by the same words, over any sources, of a formatted disk with one input, the second on what a stop behind the first left, meet
/// all premises of the promise of many drives from the words on.
pub fn two_runs<'a, I: Read, D: Disk, S: Sources<'a, I, D>, W: Write + 'a>()
    ensures { (p : Program) (file : List ℕ)
        → RanTwice {d = D.Disk} (λ (sources : S). record {
          stream = ⟦<StreamOutput<'a, W> as Disk>⟧;
          contents = W.contents;
          images = S.image_bytes sources;
          Opens = S.opens sources;
          Fills = S.fills sources;
          others = S.gives sources;
          rules = [];
        }) p file
        → RunsWitness {d = D.Disk} (λ (sources : S). record {
          stream = ⟦<StreamOutput<'a, W> as Disk>⟧;
          contents = W.contents;
          images = S.image_bytes sources;
          Opens = S.opens sources;
          Fills = S.fills sources;
          others = S.gives sources;
          rules = [];
        }) file }
{}
