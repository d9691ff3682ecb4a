//! The hunt: a program runs from its beginning by one schedule after another, each drawn from its seed, and what each run
//! comes to is counted.
#![tactic(auto)]

mod copies;
mod disks;
mod drawn;
mod given;
mod group;
mod heard;
mod hunt;
mod joining;
mod keeping;
mod kind;
mod last_line;
mod laws;
mod lots;
mod made;
mod noting;
mod onlooker;
mod outcome;
mod outcomes;
mod plan;
mod row;
mod runs;
mod saying;
mod seeds;
mod shape;
mod shorten;
mod shown;
mod table;
mod tally;
mod telling;
mod texts;
mod turn;
mod turns;
mod verdict;

pub use disks::{KeptDisk, SeedFault, keep_seed};
pub use given::{MOST_STEPS, Turn};
pub use group::{GROUP_ROWS, Group};
pub use hunt::Hunt;
pub use keeping::{KeepFault, keep};
pub use kind::{Kind, kind_of};
pub use last_line::{LINE_BYTES, LastLine};
pub use laws::{one_outcome_is_of_all, seed_repeats, told_is_kept, told_is_kept_short};
pub use made::{Lowered, Made};
pub use onlooker::{HuntOnlooker, HuntWatch, TableWatch, is_over};
pub use outcome::{Awaited, Outcome, Waiting};
pub use outcomes::{MOST_OUTCOMES, Outcomes};
pub use plan::{Input, Plan};
pub use row::{LATER_SEEDS, Row};
pub use runs::{Finished, Told, run};
pub use seeds::Seeds;
pub use shape::Shape;
pub use shorten::{Chosen, Found, MOST_TRIES, Tries, as_drawn, room_for};
pub use shown::{Measure, has_many, is_shown, total_of};
pub use table::{
    Asked, Look, write_command_line, write_kept, write_runs, write_table, write_unkept,
};
pub use tally::Tally;
pub use telling::{HuntDone, HuntFault, hunt_and_tell, hunt_fault_of};
pub use texts::write_counted;
pub use turn::{next, runner_of};
pub use turns::{MOST_TURNS, Turns};
pub use verdict::{Verdict, verdict_by};
