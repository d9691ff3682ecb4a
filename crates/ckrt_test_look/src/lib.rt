//! Tests of what looks at a guest, and of what hunts: cores, gdb's packets, what a disk has recorded, files that keep that, calls, histories, and
//! what schedules come to. Nothing else stands here.
#![tactic(auto)]

#[cfg(test)]
mod calls;
#[cfg(test)]
mod cores;
#[cfg(test)]
mod expect;
#[cfg(test)]
mod frames;
#[cfg(test)]
mod histories;
#[cfg(test)]
mod hunts;
#[cfg(test)]
mod kept;
#[cfg(test)]
mod notes;
#[cfg(test)]
mod outcomes;
#[cfg(test)]
mod packets;
#[cfg(test)]
mod plans;
#[cfg(test)]
mod positions;
#[cfg(test)]
mod recordings;
#[cfg(test)]
mod replies;
#[cfg(test)]
mod requests;
#[cfg(test)]
mod searches;
#[cfg(test)]
mod snapshots;
#[cfg(test)]
mod tables;
