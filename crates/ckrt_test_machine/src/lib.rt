//! Tests of the machine: instructions, memory, and the calls of a guest on its tables. Nothing else stands here.
#![tactic(auto)]

#[cfg(test)]
mod barriers;
#[cfg(test)]
mod calls;
#[cfg(test)]
mod cancellation;
#[cfg(test)]
mod conditions;
#[cfg(test)]
mod doubles;
#[cfg(test)]
mod drawn_guests;
#[cfg(test)]
mod expect;
#[cfg(test)]
mod instructions;
#[cfg(test)]
mod keys;
#[cfg(test)]
mod large;
#[cfg(test)]
mod linked_waits;
#[cfg(test)]
mod marks;
#[cfg(test)]
mod mutexes;
#[cfg(test)]
mod program;
#[cfg(test)]
mod routines;
#[cfg(test)]
mod rwlocks;
#[cfg(test)]
mod seats;
#[cfg(test)]
mod self_modifying;
#[cfg(test)]
mod steps;
#[cfg(test)]
mod time;
