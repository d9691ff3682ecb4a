//! One seed after another, each looked at.
ghost use Rattle.std.specs.Prelude.{◌≡◌, ◌*◌, ◌+◌, ◌-◌, ◌<◌, ◌↔◌, length, None, IfOk, IfSome, IsErrOf};
ghost use Rattle.std.specs.Bool.{OnFalse, OnTrue};
ghost use Rattle.ckrt_memory.specs.declared.MemoryError.TheVariants.{ImageTooLong};

use crate::beginning::Beginning;
use crate::look::RunLook;
use crate::walk::watch_run;
use ckrt_hunt_schedules::{Hunt, HuntOnlooker, Input, Seeds, Shape, Tally, is_over};
use ckrt_memory::MemoryError;
use std::alloc::Global;
use std::marker::Model;

/// A program that is hunted, each run of which is looked at. All room is taken by [`LookHunt::new`].
#[derive(Drop)]
pub struct LookHunt<'i, L> {
    hunt: Hunt<'i>,
    /// Makes the events of a run.
    whole: Beginning,
    /// Makes the same events step by step.
    stepped: Beginning,
    look: L,
    /// How many bytes the room of the look has.
    room: u64,
}

impl<'i, L> Model for LookHunt<'i, L> {
    ghost use Rattle.ckrt_hunt_looks.specs.Looks.{LookHunted};
    ghost use Rattle.ckrt_hunt_looks.specs.Walks.{AreBegun};

    ghost Value = { LookHunted L };

    ghost view = { λ r. record { hunt = r.hunt; room = r.room; look = r.look } };

    ghost invariant = { λ r. AreBegun r.hunt r.whole r.stepped };
}

impl<'i, L: RunLook> LookHunt<'i, L> {
    ghost use Rattle.ckrt_hunt_schedules.specs.Seeds.{IsBeginning, IsEndedBy};
    ghost use Rattle.ckrt_hunt_schedules.specs.Tallies.{AreNoted, hunted_of};
    ghost use Rattle.ckrt_hunt_looks.specs.Looks.{AreLookedAt, FillsSome, IsHuntOf, IsLookedAt, IsSeedNoted, SeedFills};

    /// The hunt of a program that begins with this image, and is given this to read, with a look in a room of so many bytes.
    ///
    /// `ImageTooLong` where the image has more bytes than the pages from page 1 on, and else `OutOfMemory` where the allocator
    /// refuses the room.
    pub fn new(
        alloc: Global,
        image: &[u8],
        shape: Shape,
        input: Input<'i>,
        room: u64,
    ) -> Result<LookHunt<'i, L>, MemoryError>
        ensures hunted { IfOk result
            (IsHuntOf L.looks room (hunted_of image.now shape input.entry)) }
        ensures too_long { IsErrOf result ImageTooLong
            ↔ (4096 * (shape.pages - 1) < length image.now) }
    {
        let hunt = Hunt::new(alloc, image, shape, input)?;
        let whole = Beginning::new(alloc, image, shape)?;
        let stepped = Beginning::new(alloc, image, shape)?;
        let look = L::begin(alloc, &whole.machine, room)?;
        Ok(LookHunt {
            hunt,
            whole,
            stepped,
            look,
            room,
        })
    }

    /// Looks at the run of a seed, and counts it unless it fills the room of the look. It takes no memory, and the hunt is as it was.
    fn look_at(&mut self, seed: u64, counted: &mut L::Counted) -> bool
        requires { IsHuntOf L.looks self.old.room self.old.hunt self.old }
        ensures looked_at { OnTrue result
            (IsLookedAt L.looks self.old.hunt seed counted.old counted.new) }
        ensures full { OnFalse result (SeedFills L.looks self.old.room self.old.hunt seed) }
        ensures same { IsHuntOf L.looks self.old.room self.old.hunt self.new }
    {
        self.look.forget();
        self.whole.put_aside();
        self.stepped.put_aside();
        watch_run(
            &mut self.whole.machine,
            &mut self.stepped.machine,
            &self.hunt.plan_of(seed),
            &mut self.look,
        );
        self.whole.begin_again();
        self.stepped.begin_again();
        self.look.count(seed, counted)
    }

    /// Notes what a seed comes to, looks at its run, and counts that unless it fills the room of the look. It takes no memory, and the hunt
    /// is as it was.
    pub fn note_seed(&mut self, seed: u64, tally: &mut Tally, counted: &mut L::Counted) -> bool
        requires { IsHuntOf L.looks self.old.room self.old.hunt self.old }
        ensures noted { IsSeedNoted self.old.hunt seed tally.old tally.new }
        ensures looked_at { OnTrue result
            (IsLookedAt L.looks self.old.hunt seed counted.old counted.new) }
        ensures full { OnFalse result (SeedFills L.looks self.old.room self.old.hunt seed) }
        ensures same { IsHuntOf L.looks self.old.room self.old.hunt self.new }
    {
        tally.note(seed, self.hunt.run_seed(seed));
        self.look_at(seed, counted)
    }

    /// Notes what the seeds of a range come to, in turn, and looks at their runs. An onlooker is told of each but the last one. Where
    /// the hunt may end early, it ends with the first seed after which the onlooker has no time. The answer is the range that was
    /// noted; nothing where a run fills the room of the look. It takes no memory, and the hunt is as it was.
    pub fn note_seeds<O: HuntOnlooker>(
        &mut self,
        tally: &mut Tally,
        counted: &mut L::Counted,
        seeds: Seeds,
        may_end: bool,
        onlooker: &mut O,
    ) -> Option<Seeds>
        requires { IsHuntOf L.looks self.old.room self.old.hunt self.old }
        ensures begins { IfSome result (IsBeginning seeds may_end) }
        ensures ended { IfSome result (IsEndedBy O.Answers seeds may_end) }
        ensures noted { IfSome result (λ run.
            AreNoted self.old.hunt seeds.first (run.last - seeds.first + 1) tally.old tally.new) }
        ensures looked_at { IfSome result (λ run. AreLookedAt L.looks self.old.hunt seeds.first
            (run.last - seeds.first + 1) counted.old counted.new) }
        ensures full { result ≡ None → FillsSome L.looks self.old.room self.old.hunt seeds }
        ensures same { IsHuntOf L.looks self.old.room self.old.hunt self.new }
    {
        for seed in seeds.first..seeds.last {
            if !self.note_seed(seed, tally, counted) {
                return None;
            }
            if is_over(onlooker, seed, tally, may_end) {
                return Some(Seeds {
                    first: seeds.first,
                    last: seed,
                });
            }
        }
        if self.note_seed(seeds.last, tally, counted) {
            Some(seeds)
        } else {
            None
        }
    }
}
