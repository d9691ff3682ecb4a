//! A hunt from its image to its table, with what its runs are looked at for.
ghost use Rattle.std.specs.Prelude.{◌≡◌, ◌≢◌, ◌⊎◌, ◌*◌, ◌-◌, ◌<◌, ◌↔◌, ◌++◌, length, true, IfErr, IfOk, IsErrOf, OnOk};
ghost use Rattle.std.specs.Io.KnownBytes.{Appends};
ghost use Rattle.ckrt_hunt_schedules.specs.Seeds.{IsEndedBy};
ghost use Rattle.ckrt_hunt_schedules.specs.declared.table.Look.TheVariants as look;
ghost use Rattle.ckrt_hunt_schedules.specs.declared.telling.HuntFault.TheVariants as fault;
ghost use Rattle.ckrt_hunt_schedules.specs.Table.{is_closer, table_text};
ghost use Rattle.ckrt_hunt_schedules.specs.Tallies.{AreEmpty, IsRoom, hunted_of};
ghost use Rattle.ckrt_hunt_looks.specs.Errors.{error_look};
ghost use Rattle.ckrt_hunt_looks.specs.Hunts.{FillsAsked, IsCounted, IsHuntedWith, has_found, text_behind, told_text, verdict_on};
ghost use Rattle.ckrt_hunt_looks.specs.Looks.{FillsSome, IsHuntOf};
ghost use Rattle.ckrt_hunt_looks.specs.Races.{race_look};

use crate::hunt::LookHunt;
use crate::look::RunLook;
use crate::rows::FoundRows;
use crate::table::{write_errors, write_races};
use crate::tally::RaceTally;
use ckrt_hunt_schedules::{
    Asked, HuntDone, HuntFault, HuntOnlooker, Input, Look, Outcomes, Tally, Verdict, hunt_and_tell,
    hunt_fault_of, write_table,
};
use ckrt_look_clocks::Detector;
use ckrt_look_heap::{Finding, Shadow};
use std::alloc::{AllocError, Global};
use std::io;
use std::io::Write;

/// What the runs of a hunt came to, and what was counted by a look at them.
#[derive(Drop)]
pub struct LookDone<T> {
    pub done: HuntDone,
    pub counted: T,
}

/// What was found in the runs of a hunt, beside their outcomes.
#[derive(Drop)]
pub enum HuntFound {
    /// They weren't looked at for more.
    Nothing,
    /// These races, and cycles of locks.
    Races(RaceTally),
    /// These errors of memory.
    Errors(FoundRows<Finding>),
}

/// What a hunt came to.
#[derive(Drop)]
pub struct HuntTold {
    /// The seeds that were run, and what they came to.
    pub done: HuntDone,
    /// What their runs were looked at for.
    pub found: HuntFound,
}

/// Whether something was found in some run.
fn has_found(found: &HuntFound) -> bool
    ensures { result ≡ has_found found.now }
{
    match found {
        HuntFound::Nothing => false,
        HuntFound::Races(races) => races.has_some(),
        HuntFound::Errors(errors) => errors.has_some(),
    }
}

impl HuntTold {
    /// What the runs came to together.
    pub fn verdict(&self) -> Verdict
        ensures { result ≡ verdict_on self.now }
    {
        if has_found(&self.found) {
            Verdict::Several
        } else {
            self.done.outcomes.verdict()
        }
    }
}

/// What is counted of a hunt's runs, before the first of them.
fn nothing_counted<L: RunLook>(alloc: Global) -> Result<(Tally, Outcomes, L::Counted), AllocError>
    ensures nothing { IfOk result (λ all. AreEmpty all.0) }
    ensures room { IfOk result (λ all. IsRoom all.1) }
    ensures counted { IfOk result (λ all. L.looks.IsNothing all.2) }
{
    let tally = Tally::new(alloc)?;
    let outcomes = Outcomes::new(alloc)?;
    let counted = L::nothing(alloc)?;
    Ok((tally, outcomes, counted))
}

/// Runs the seeds of a program, and looks at each run.
fn count_runs<L: RunLook, O: HuntOnlooker>(
    alloc: Global,
    hunt: &mut LookHunt<'_, L>,
    asked: &Asked<'_>,
    onlooker: &mut O,
) -> Result<LookDone<L::Counted>, HuntFault>
    requires { IsHuntOf L.looks hunt.old.room hunt.old.hunt hunt.old }
    ensures counted { IfOk result (IsCounted L.looks hunt.old.hunt asked.now) }
    ensures ended { IfOk result
        (λ it. IsEndedBy O.Answers asked.now.seeds asked.now.may_end it.done.seeds) }
    ensures fault { IfErr result (λ e. (e ≡ fault.OutOfMemory) ⊎ (e ≡ fault.ShadowFull)) }
    ensures full { IfErr result (λ e. e ≡ fault.ShadowFull
        → FillsSome L.looks hunt.old.room hunt.old.hunt asked.now.seeds) }
{
    let (mut tally, mut outcomes, mut counted) = nothing_counted::<L>(alloc)?;
    let run = hunt.note_seeds(
        &mut tally,
        &mut counted,
        asked.seeds,
        asked.may_end,
        onlooker,
    );
    let Some(seeds) = run else {
        return Err(HuntFault::ShadowFull);
    };
    outcomes.take(&mut tally);
    onlooker.end_hunt(seeds, &outcomes);
    Ok(LookDone {
        done: HuntDone { seeds, outcomes },
        counted,
    })
}

/// Gives the room of a hunt back. It is done in one place, since the proof that it may be has to look at all of it.
fn give_back<L: RunLook>(hunt: LookHunt<'_, L>) {
    let _given = hunt;
}

/// The same, and gives the room of the hunt back.
fn count_all<L: RunLook, O: HuntOnlooker>(
    alloc: Global,
    hunt: LookHunt<'_, L>,
    asked: &Asked<'_>,
    onlooker: &mut O,
) -> Result<LookDone<L::Counted>, HuntFault>
    requires { IsHuntOf L.looks hunt.room hunt.hunt hunt }
    ensures counted { IfOk result (IsCounted L.looks hunt.entry.hunt asked.now) }
    ensures ended { IfOk result
        (λ it. IsEndedBy O.Answers asked.now.seeds asked.now.may_end it.done.seeds) }
    ensures fault { IfErr result (λ e. (e ≡ fault.OutOfMemory) ⊎ (e ≡ fault.ShadowFull)) }
    ensures full { IfErr result (λ e. e ≡ fault.ShadowFull
        → FillsSome L.looks hunt.entry.room hunt.entry.hunt asked.now.seeds) }
{
    let mut hunt = hunt;
    let counted = count_runs(alloc, &mut hunt, asked, onlooker);
    give_back(hunt);
    counted
}

/// The same of a program that begins with this image, and is given this to read.
fn hunt_with<L: RunLook, O: HuntOnlooker>(
    alloc: Global,
    image: &[u8],
    input: Input<'_>,
    asked: &Asked<'_>,
    onlooker: &mut O,
) -> Result<LookDone<L::Counted>, HuntFault>
    ensures counted { IfOk result
        (IsCounted L.looks (hunted_of image.now asked.now.shape input.entry) asked.now) }
    ensures ended { IfOk result
        (λ it. IsEndedBy O.Answers asked.now.seeds asked.now.may_end it.done.seeds) }
    ensures too_long { IsErrOf result fault.ImageTooLong
        ↔ (4096 * (asked.now.shape.pages - 1) < length image.now) }
    ensures never { IfErr result (λ e. e ≢ fault.Write) }
    ensures full { IfErr result (λ e. e ≡ fault.ShadowFull → FillsSome L.looks asked.now.room
        (hunted_of image.now asked.now.shape input.entry) asked.now.seeds) }
{
    match LookHunt::<L>::new(alloc, image, asked.shape, input, asked.room) {
        Ok(hunt) => count_all(alloc, hunt, asked, onlooker),
        Err(fault) => Err(hunt_fault_of(fault)),
    }
}

/// The same with a look at races.
fn hunt_for_races<O: HuntOnlooker>(
    alloc: Global,
    image: &[u8],
    input: Input<'_>,
    asked: &Asked<'_>,
    onlooker: &mut O,
) -> Result<HuntTold, HuntFault>
    ensures hunted { IfOk result (IsHuntedWith look.Races image.now input.entry asked.now) }
    ensures ended { IfOk result
        (λ told. IsEndedBy O.Answers asked.now.seeds asked.now.may_end told.done.seeds) }
    ensures too_long { IsErrOf result fault.ImageTooLong
        ↔ (4096 * (asked.now.shape.pages - 1) < length image.now) }
    ensures never { IfErr result (λ e. e ≢ fault.Write) }
    ensures full { IfErr result (λ e. e ≡ fault.ShadowFull → FillsSome race_look asked.now.room
        (hunted_of image.now asked.now.shape input.entry) asked.now.seeds) }
{
    match hunt_with::<Detector, O>(alloc, image, input, asked, onlooker) {
        Ok(it) => Ok(HuntTold {
            done: it.done,
            found: HuntFound::Races(it.counted),
        }),
        Err(fault) => Err(fault),
    }
}

/// The same with a look at errors of memory.
fn hunt_for_errors<O: HuntOnlooker>(
    alloc: Global,
    image: &[u8],
    input: Input<'_>,
    asked: &Asked<'_>,
    onlooker: &mut O,
) -> Result<HuntTold, HuntFault>
    ensures hunted { IfOk result (IsHuntedWith look.Errors image.now input.entry asked.now) }
    ensures ended { IfOk result
        (λ told. IsEndedBy O.Answers asked.now.seeds asked.now.may_end told.done.seeds) }
    ensures too_long { IsErrOf result fault.ImageTooLong
        ↔ (4096 * (asked.now.shape.pages - 1) < length image.now) }
    ensures never { IfErr result (λ e. e ≢ fault.Write) }
    ensures full { IfErr result (λ e. e ≡ fault.ShadowFull → FillsSome error_look asked.now.room
        (hunted_of image.now asked.now.shape input.entry) asked.now.seeds) }
{
    match hunt_with::<Shadow, O>(alloc, image, input, asked, onlooker) {
        Ok(it) => Ok(HuntTold {
            done: it.done,
            found: HuntFound::Errors(it.counted),
        }),
        Err(fault) => Err(fault),
    }
}

/// Writes what was found in the runs of a hunt.
#[tactic(auto, using(ckrt_hunt_schedules::proofs::AppendLemmas::appends_none))]
fn write_behind<W: Write>(out: &mut W, asked: &Asked<'_>, found: &HuntFound) -> io::Result<()>
    ensures { OnOk result
        (Appends (W.contents out.old) (W.contents out.new) (text_behind asked.now found.now)) }
{
    match found {
        HuntFound::Nothing => Ok(()),
        HuntFound::Races(races) => write_races(out, asked, races),
        HuntFound::Errors(errors) => write_errors(out, asked, errors),
    }
}

/// Writes what a hunt came to: the table of its outcomes, and what was found after it.
#[tactic(auto, using(ckrt_hunt_schedules::proofs::AppendLemmas::appends_both))]
fn write_told<W: Write>(out: &mut W, asked: &Asked<'_>, told: &HuntTold) -> io::Result<()>
    ensures { OnOk result
        (Appends (W.contents out.old) (W.contents out.new)
        (table_text asked.now told.now.done.outcomes ++ text_behind asked.now told.now.found)) }
{
    write_table(out, asked, &told.done.outcomes)?;
    write_behind(out, asked, &told.found)
}

/// The same with the look that is asked for.
fn hunt_closer<O: HuntOnlooker>(
    alloc: Global,
    image: &[u8],
    input: Input<'_>,
    asked: &Asked<'_>,
    onlooker: &mut O,
) -> Result<HuntTold, HuntFault>
    requires { is_closer asked.now.look ≡ true }
    ensures hunted { IfOk result
        (IsHuntedWith asked.now.look image.now input.entry asked.now) }
    ensures ended { IfOk result
        (λ told. IsEndedBy O.Answers asked.now.seeds asked.now.may_end told.done.seeds) }
    ensures too_long { IsErrOf result fault.ImageTooLong
        ↔ (4096 * (asked.now.shape.pages - 1) < length image.now) }
    ensures never { IfErr result (λ e. e ≢ fault.Write) }
    ensures full { IfErr result (λ e. e ≡ fault.ShadowFull
        → FillsAsked asked.now.look asked.now.room
        (hunted_of image.now asked.now.shape input.entry) asked.now.seeds) }
{
    match asked.look {
        Look::Errors => hunt_for_errors(alloc, image, input, asked, onlooker),
        Look::Races | Look::Outcomes => hunt_for_races(alloc, image, input, asked, onlooker),
    }
}

/// The same as [`hunt_as_asked`], where a closer look is asked for.
fn hunt_and_tell_closer<O: HuntOnlooker, W: Write>(
    alloc: Global,
    image: &[u8],
    input: Input<'_>,
    asked: &Asked<'_>,
    onlooker: &mut O,
    out: &mut W,
) -> Result<HuntTold, HuntFault>
    requires { is_closer asked.now.look ≡ true }
    ensures hunted { IfOk result
        (IsHuntedWith asked.now.look image.now input.entry asked.now) }
    ensures ended { IfOk result
        (λ told. IsEndedBy O.Answers asked.now.seeds asked.now.may_end told.done.seeds) }
    ensures told { IfOk result (λ told.
        Appends (W.contents out.old) (W.contents out.new) (told_text asked.now told)) }
    ensures too_long { IsErrOf result fault.ImageTooLong
        ↔ (4096 * (asked.now.shape.pages - 1) < length image.now) }
    ensures unwritten { IfErr result (λ e. e ≢ fault.Write → out.new ≡ out.old) }
    ensures full { IfErr result (λ e. e ≡ fault.ShadowFull
        → FillsAsked asked.now.look asked.now.room
        (hunted_of image.now asked.now.shape input.entry) asked.now.seeds) }
{
    let told = match hunt_closer(alloc, image, input, asked, onlooker) {
        Ok(told) => told,
        Err(fault) => return Err(fault),
    };
    let run = Asked {
        seeds: told.done.seeds,
        ..*asked
    };
    match write_told(out, &run, &told) {
        Ok(()) => Ok(told),
        Err(_) => Err(HuntFault::Write),
    }
}

/// Hunts a program that begins with this image, and is given this to read: runs each seed of the range in turn, and writes the table of
/// what they came to. Where races or errors of memory are asked for, each run is looked at for them too, and they are written after the
/// table. Where the hunt may end early, an onlooker says after which seed it does, and what is told is that of the seeds up to it. All
/// room is taken before the first run.
///
/// # Errors
///
/// `ImageTooLong` where the image has more bytes than the pages from page 1 on, `OutOfMemory` where the allocator refuses the room, and
/// `ShadowFull` where a run that is looked at fills the room of the look, before anything is written; `Write` where the writer failed.
pub fn hunt_as_asked<O: HuntOnlooker, W: Write>(
    alloc: Global,
    image: &[u8],
    input: Input<'_>,
    asked: &Asked<'_>,
    onlooker: &mut O,
    out: &mut W,
) -> Result<HuntTold, HuntFault>
    ensures hunted { IfOk result
        (IsHuntedWith asked.now.look image.now input.entry asked.now) }
    ensures ended { IfOk result
        (λ told. IsEndedBy O.Answers asked.now.seeds asked.now.may_end told.done.seeds) }
    ensures told { IfOk result (λ told.
        Appends (W.contents out.old) (W.contents out.new) (told_text asked.now told)) }
    ensures too_long { IsErrOf result fault.ImageTooLong
        ↔ (4096 * (asked.now.shape.pages - 1) < length image.now) }
    ensures unwritten { IfErr result (λ e. e ≢ fault.Write → out.new ≡ out.old) }
    ensures full { IfErr result (λ e. e ≡ fault.ShadowFull
        → FillsAsked asked.now.look asked.now.room
        (hunted_of image.now asked.now.shape input.entry) asked.now.seeds) }
{
    if asked.look.is_closer() {
        return hunt_and_tell_closer(alloc, image, input, asked, onlooker, out);
    }
    match hunt_and_tell(alloc, image, input, asked, onlooker, out) {
        Ok(done) => Ok(HuntTold {
            done,
            found: HuntFound::Nothing,
        }),
        Err(fault) => Err(fault),
    }
}
