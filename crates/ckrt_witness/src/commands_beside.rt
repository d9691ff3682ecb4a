//! Runs that are made by their words and keep a history, as the law of a history beside many runs speaks of them.
ghost use Rattle.std.specs.Prelude.{ℕ, []};
ghost use Rattle.ckrt_stored.specs.Programs.{Program};
ghost use Rattle.ckrt_witness.specs.CommandsBeside.{CommandsWitness, RanTwice};

use ckrt_cli::{disks_are_left_before_drives, runs_go_on_beside_a_history, runs_keep_histories};
use ckrt_cli_files::Sources;
use ckrt_disk::Disk;
use ckrt_drive::StreamOutput;
use ckrt_history::runs_stand_beside_a_history;
use std::io::{Read, Write};

/// Two runs by the same words, over any sources, that keep the history of a formatted disk, the second on what a stop behind the first left, meet all
/// premises of the law of a history beside many runs from the words on. So whatever each left stands. The second meets those of the law of runs that keep
/// a history, too.
pub fn two_commands_beside<'a, I: Read, D: Disk, S: Sources<'a, I, D>, W: Write + 'a>()
    ensures { (p : Program) (count : ℕ)
        → RanTwice {d = D.Disk} (λ (sources : S). record {
          stream = ⟦<StreamOutput<'a, W> as Disk>⟧;
          contents = W.contents;
          images = S.image_bytes sources;
          Opens = S.opens sources;
          Fills = S.fills sources;
          others = S.gives sources;
          rules = [];
        }) p count
        → CommandsWitness {d = D.Disk} (λ (sources : S). record {
          stream = ⟦<StreamOutput<'a, W> as Disk>⟧;
          contents = W.contents;
          images = S.image_bytes sources;
          Opens = S.opens sources;
          Fills = S.fills sources;
          others = S.gives sources;
          rules = [];
        }) count }
{
    runs_go_on_beside_a_history::<I, D, S, W>();
    disks_are_left_before_drives::<D>();
    runs_stand_beside_a_history::<D, D, D>();
    runs_keep_histories::<D, D>();
}
