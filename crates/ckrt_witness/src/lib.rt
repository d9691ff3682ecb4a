//! Witnesses: of the theorems of docs/promises examples that meet all premises at once. So no theorem is true only because nothing meets it.
#![tactic(auto)]

mod alike;
mod areas;
mod before;
mod beside;
#[cfg(test)]
mod closed;
#[cfg(test)]
mod closed_alike;
#[cfg(test)]
mod closed_areas;
#[cfg(test)]
mod closed_before;
#[cfg(test)]
mod closed_beside;
#[cfg(test)]
mod closed_codes;
#[cfg(test)]
mod closed_commands;
#[cfg(test)]
mod closed_commands_beside;
#[cfg(test)]
mod closed_drive_turns;
#[cfg(test)]
mod closed_faults;
#[cfg(test)]
mod closed_inspecting;
#[cfg(test)]
mod closed_lengthened;
#[cfg(test)]
mod closed_lengths;
#[cfg(test)]
mod closed_lives;
#[cfg(test)]
mod closed_machine;
#[cfg(test)]
mod closed_making;
#[cfg(test)]
mod closed_memory_words;
#[cfg(test)]
mod closed_printed;
#[cfg(test)]
mod closed_released;
#[cfg(test)]
mod closed_service;
#[cfg(test)]
mod closed_stopping;
#[cfg(test)]
mod closed_streams;
#[cfg(test)]
mod closed_words;
mod codes;
mod commands;
mod commands_beside;
mod drives;
mod faults;
mod files;
mod inspecting;
mod lengthened;
mod lengths;
mod lives;
mod machine;
mod making;
mod power;
mod printed;
mod released;
mod saved;
mod service;
mod shelf;
mod stopping;
mod streams;
mod turns;
mod turns_in_drives;
mod words;

pub use alike::{answer_alike, represent_again, represent_one};
pub use areas::{change_unused, has_both_open};
pub use before::{fail_recovery, read_before, stop_before};
pub use beside::{Unmade, keep_once, two_runs_beside};
pub use codes::{read_events, read_instruction};
pub use commands::two_runs;
pub use commands_beside::two_commands_beside;
pub use drives::{Left, drive_once, two_drives};
pub use faults::{fail_commit, have_each_fault, is_refused, refuse_checkpoint};
pub use files::{Three, opened_again, three_sizes};
pub use inspecting::inspect_one;
pub use lengthened::lengthen;
pub use lengths::drive_to_end;
pub use lives::live_four_times;
pub use machine::{Places, apply_each_kind};
pub use making::{make_one, refuse_one};
pub use power::{commit_one, save_one};
pub use printed::{fail_one, hold_one, run_one, serve_twice};
pub use released::release_twice;
pub use saved::{is_fresh, read_saved};
pub use service::{refuse_image, serve_in_memory, serve_once};
pub use shelf::{GivenBack, HistoryFile, Noted, Shelf};
pub use stopping::{fail_by_input, fail_drive};
pub use streams::{Cut, Narrow, serve_broken};
pub use turns::{make_events, make_turns};
pub use turns_in_drives::{Alone, drive_alone, drive_turns, turn_twice};
pub use words::{ask_format, ask_version};
