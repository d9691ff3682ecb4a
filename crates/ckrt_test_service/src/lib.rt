//! Tests of sessions over a disk, of the record of an input, of the service over a session, of guests from lines to replies, and of lives of
//! one, one after another. Nothing else stands here.
#![tactic(auto)]

#[cfg(test)]
mod broken_streams;
#[cfg(test)]
mod cancelled_guests;
#[cfg(test)]
mod changed_pages;
#[cfg(test)]
mod changes;
#[cfg(test)]
mod checkpoints;
#[cfg(test)]
mod contention;
#[cfg(test)]
mod every_call;
#[cfg(test)]
mod every_change;
#[cfg(test)]
mod expect;
#[cfg(test)]
mod first_path;
#[cfg(test)]
mod giving;
#[cfg(test)]
mod image_service;
#[cfg(test)]
mod input;
#[cfg(test)]
mod inspected_failures;
#[cfg(test)]
mod keys;
#[cfg(test)]
mod largest;
#[cfg(test)]
mod lives;
#[cfg(test)]
mod long_runs;
#[cfg(test)]
mod old_disks;
#[cfg(test)]
mod power_loss;
#[cfg(test)]
mod record;
#[cfg(test)]
mod recovery;
#[cfg(test)]
mod saved_disks;
#[cfg(test)]
mod saved_waits;
#[cfg(test)]
mod schedules;
#[cfg(test)]
mod served_checkpoints;
#[cfg(test)]
mod service;
#[cfg(test)]
mod serving;
#[cfg(test)]
mod sessions;
#[cfg(test)]
mod small_disk;
#[cfg(test)]
mod streams;
#[cfg(test)]
mod threads;
#[cfg(test)]
mod two_areas;
#[cfg(test)]
mod waiting;
#[cfg(test)]
mod worked_examples;
