//! A shorter schedule by which a program comes to the same.
ghost use Rattle.std.specs.Prelude.{◌≡◌, ◌≤◌, ◌<◌, ◌*◌, ◌-◌, ◌↔◌, length, IfOk, IfSome, IsErrOf, true};
ghost use Rattle.ckrt_memory.specs.declared.MemoryError.TheVariants.{ImageTooLong};
ghost use Rattle.ckrt_hunt_schedules.specs.Short.{ComesToTheSame, IsChosen, IsFound};
ghost use Rattle.ckrt_hunt_schedules.specs.Tallies.{hunted_of, plan_in};

use crate::hunt::Hunt;
use crate::made::Made;
use crate::plan::{Input, Plan};
use crate::runs::{Finished, Told};
use crate::shape::Shape;
use crate::turns::Turns;
use ckrt_memory::MemoryError;
use std::alloc::{AllocError, Global};
use std::mem;

/// How many shorter schedules are tried at most for an outcome.
pub const MOST_TRIES: u32 = 1_000;

/// The room that a search for a shorter schedule has, and what it proposes.
#[derive(Drop)]
pub struct Tries {
    /// The turns that are proposed for the first seed of an outcome.
    own: Turns,
    /// Those of the later seed whose run has the fewest switches.
    other: Turns,
    /// Which seed that is, where it has fewer than the first one's.
    later: Option<u64>,
    /// Of how many seeds a run was shortened.
    seeds: u32,
    best: Turns,
    tried: Turns,
}

/// A plan that comes to what a seed comes to, and how many switches the runs of both have.
#[derive(Clone, Copy, Debug)]
pub struct Found<'a> {
    pub plan: Plan<'a>,
    pub drawn: u32,
    pub switches: u32,
}

/// The seed of an outcome whose run is kept, the plan that was found for it, and of how many seeds a run was shortened.
#[derive(Clone, Copy, Debug)]
pub struct Chosen<'a> {
    pub seed: u64,
    pub found: Found<'a>,
    pub seeds: u32,
}

/// How many switches a run has that was shortened, and how many tries are left.
#[derive(Clone, Copy)]
struct Shortened {
    switches: u32,
    tries: u32,
}

/// Which turns are left out next: first all, then each half, and so on, from the last one back, and at last one by one until none can be
/// left out.
#[derive(Drop)]
struct Search {
    piece: usize,
    /// The turns before this place have their tries in this round ahead.
    ahead: usize,
    /// Whether something was left out in this round.
    has_cut: bool,
}

/// The turns from a place on up to another one.
#[derive(Clone, Copy)]
struct Piece {
    from: usize,
    to: usize,
}

impl Search {
    /// The search among that many turns.
    fn new(count: usize) -> Search {
        Search {
            piece: count,
            ahead: count,
            has_cut: false,
        }
    }

    /// Goes on to the next round, with pieces half as long; false behind one of single turns that left out nothing.
    fn next_round(&mut self, count: usize) -> bool {
        if self.piece <= 1 && !self.has_cut {
            return false;
        }
        self.piece /= 2;
        self.ahead = count;
        self.has_cut = false;
        true
    }

    /// Up to where turns are left out next of that many; None where there is nothing more to try.
    fn next_end(&mut self, count: usize) -> Option<usize>
        ensures { IfSome result (λ to. (1 ≤ to) × (to ≤ count)) }
    {
        if count == 0 {
            return None;
        }
        if 0 < self.ahead {
            return Some(self.ahead.min(count));
        }
        if self.next_round(count) {
            return Some(count);
        }
        None
    }

    /// What is left out next of that many turns, one turn at least; None where there is nothing more to try.
    fn next(&mut self, count: usize) -> Option<Piece>
        ensures { IfSome result (λ piece. (piece.from < piece.to) × (piece.to ≤ count)) }
    {
        let to = self.next_end(count)?;
        let from = to.saturating_sub(self.piece.max(1));
        self.ahead = from;
        Some(Piece { from, to })
    }
}

/// Whether a run made no more events and switches than another one.
fn is_no_longer(run: &Made, than: &Made) -> bool
    ensures events { result ≡ true → run.now.events ≤ than.now.events }
    ensures switches { result ≡ true → run.now.switches ≤ than.now.switches }
{
    run.events <= than.events && run.switches <= than.switches
}

/// Whether a run comes to this, in no more events and switches than another one.
fn is_as_good(run: &Finished, told: &Told, than: &Made) -> bool
    ensures same { result ≡ true → run.now.told ≡ told.now }
    ensures events { result ≡ true → run.now.made.events ≤ than.now.events }
    ensures switches { result ≡ true → run.now.made.switches ≤ than.now.switches }
{
    if run.told == *told {
        is_no_longer(&run.made, than)
    } else {
        false
    }
}

/// The plan of a seed with these turns, where it comes to what the seed comes to in no more events and switches, and else the plan of the
/// seed. It takes no memory, and the hunt is as it was.
fn found_by<'a, 'i: 'a>(hunt: &mut Hunt<'i>, seed: u64, turns: &'a Turns) -> Found<'a>
    ensures found { IsFound hunt.old seed result }
    ensures same { hunt.new ≡ hunt.old }
{
    let drawn: Plan<'a> = hunt.plan_of(seed);
    let first = hunt.run_by(&drawn);
    let plan = drawn.with_turns(turns.as_slice());
    let again = hunt.run_by(&plan);
    if is_as_good(&again, &first.told, &first.made) {
        Found {
            plan,
            drawn: first.made.switches,
            switches: again.made.switches,
        }
    } else {
        Found {
            plan: drawn,
            drawn: first.made.switches,
            switches: first.made.switches,
        }
    }
}

/// Whether two seeds come to one outcome. It takes no memory, and the hunt is as it was.
fn come_to_one(hunt: &mut Hunt<'_>, first: u64, seed: u64) -> bool
    ensures same { result ≡ true → ComesToTheSame hunt.old first seed }
    ensures hunt { hunt.new ≡ hunt.old }
{
    let own = hunt.run_seed(first);
    let other = hunt.run_seed(seed);
    other.told == own.told
}

impl Tries {
    /// Room for the turns of a run, four times.
    pub fn new(alloc: Global) -> Result<Tries, AllocError> {
        Ok(Tries {
            own: Turns::new(alloc)?,
            other: Turns::new(alloc)?,
            later: None,
            seeds: 0,
            best: Turns::new(alloc)?,
            tried: Turns::new(alloc)?,
        })
    }

    /// Leaves out turns as long as the rest comes to the same.
    fn leave_out(
        &mut self,
        hunt: &mut Hunt<'_>,
        plan: &Plan<'_>,
        first: &Finished,
        tries: u32,
    ) -> Shortened
        ensures { hunt.new ≡ hunt.old }
    {
        let mut least = first.made;
        let mut search = Search::new(self.best.as_slice().len());
        for done in 0..tries {
            let Some(piece) = search.next(self.best.as_slice().len()) else {
                return Shortened {
                    switches: least.switches,
                    tries: tries - done,
                };
            };
            self.tried
                .set_without(self.best.as_slice(), piece.from, piece.to);
            let run = hunt.run_by(&plan.with_turns(self.tried.as_slice()));
            if is_as_good(&run, &first.told, &least) {
                mem::swap(&mut self.best, &mut self.tried);
                least = run.made;
                search.has_cut = true;
            }
        }
        Shortened {
            switches: least.switches,
            tries: 0,
        }
    }

    /// Looks for turns by which a program comes to what a seed comes to, with as few switches as it finds in so many tries. A run of
    /// too many turns is left as it was drawn.
    fn shorten(&mut self, hunt: &mut Hunt<'_>, seed: u64, tries: u32) -> Shortened
        ensures { hunt.new ≡ hunt.old }
    {
        let plan = hunt.plan_of(seed);
        let first = hunt.run_by(&plan);
        if hunt.note_turns(&plan, &mut self.best) {
            return self.leave_out(hunt, &plan, &first, tries);
        }
        Shortened {
            switches: first.made.switches,
            tries,
        }
    }

    /// Looks for the shortest run among those of seeds of one outcome: shortens the first one's, and then those of later ones, as long
    /// as tries are left. What it finds is a proposal, which [`Tries::chosen`] tries. It takes no memory, and the hunt is as it was.
    pub fn search(&mut self, hunt: &mut Hunt<'_>, first: u64, later: &[u64])
        ensures { hunt.new ≡ hunt.old }
    {
        let mut least = self.shorten(hunt, first, MOST_TRIES);
        mem::swap(&mut self.own, &mut self.best);
        self.later = None;
        self.seeds = 1;
        for seed in later {
            if least.tries == 0 {
                return;
            }
            let run = self.shorten(hunt, *seed, least.tries);
            self.seeds = self.seeds.saturating_add(1);
            least.tries = run.tries;
            if run.switches < least.switches {
                mem::swap(&mut self.other, &mut self.best);
                self.later = Some(*seed);
                least.switches = run.switches;
            }
        }
    }

    /// The later seed that was proposed, where it comes to what the first one comes to, in fewer switches than the plan that was found for
    /// that, and else the first one.
    fn better<'a, 'i: 'a>(
        &'a self,
        hunt: &mut Hunt<'i>,
        first: u64,
        own: Found<'a>,
        later: u64,
    ) -> Chosen<'a>
        requires { IsFound hunt.old first own }
        ensures chosen { IsChosen hunt.old first result }
        ensures same { hunt.new ≡ hunt.old }
    {
        let kept = Chosen {
            seed: first,
            found: own,
            seeds: self.seeds,
        };
        if !come_to_one(hunt, first, later) {
            return kept;
        }
        let found = found_by(hunt, later, &self.other);
        if found.switches < own.switches {
            Chosen {
                seed: later,
                found,
                seeds: self.seeds,
            }
        } else {
            kept
        }
    }

    /// The seed that was proposed for the outcome of the first one, where it comes to that in fewer switches, and else the first one; and
    /// the plan with the turns that were proposed for it, where that comes to the same in no more events and switches than the seed's
    /// own, and else the seed's own. It takes no memory, and the hunt is as it was.
    pub fn chosen<'a, 'i: 'a>(&'a self, hunt: &mut Hunt<'i>, first: u64) -> Chosen<'a>
        ensures chosen { IsChosen hunt.old first result }
        ensures same { hunt.new ≡ hunt.old }
    {
        let own = found_by(hunt, first, &self.own);
        match self.later {
            Some(later) => self.better(hunt, first, own, later),
            None => Chosen {
                seed: first,
                found: own,
                seeds: self.seeds,
            },
        }
    }
}

/// The plan of a seed.
fn drawn_by<'i>(hunt: &mut Hunt<'i>, seed: u64) -> Found<'i>
    ensures found { IsFound hunt.old seed result }
    ensures drawn { result.plan ≡ plan_in hunt.old seed }
    ensures same { hunt.new ≡ hunt.old }
{
    let plan = hunt.plan_of(seed);
    let switches = hunt.run_by(&plan).made.switches;
    Found {
        plan,
        drawn: switches,
        switches,
    }
}

/// A seed and its plan, as it was drawn. It takes no memory, and the hunt is as it was.
pub fn as_drawn<'i>(hunt: &mut Hunt<'i>, seed: u64) -> Chosen<'i>
    ensures chosen { IsChosen hunt.old seed result }
    ensures seed { result.seed ≡ seed }
    ensures drawn { result.found.plan ≡ plan_in hunt.old seed }
    ensures same { hunt.new ≡ hunt.old }
{
    let found = drawn_by(hunt, seed);
    Chosen {
        seed,
        found,
        seeds: 1,
    }
}

/// The hunt of a program that begins with this image, and the room to look for a shorter schedule of a seed.
///
/// `ImageTooLong` where the image has more bytes than the pages from page 1 on, and else `OutOfMemory` where the allocator
/// refuses the room.
pub fn room_for<'i>(
    alloc: Global,
    image: &[u8],
    shape: Shape,
    input: Input<'i>,
) -> Result<(Hunt<'i>, Tries), MemoryError>
    ensures hunted { IfOk result (λ room. room.0 ≡ hunted_of image.now shape input.entry) }
    ensures too_long { IsErrOf result ImageTooLong
        ↔ (4096 * (shape.pages - 1) < length image.now) }
{
    let hunt = Hunt::new(alloc, image, shape, input)?;
    let tries = Tries::new(alloc)?;
    Ok((hunt, tries))
}
