//! Onlookers of a drive.

use crate::step_done::StepDone;
use ckrt_disk::Disk;
use ckrt_recovery::Session;
use ckrt_schedule::Nobody;

/// An onlooker of a drive while it runs. It is told each step, and nothing of the drive depends on it.
pub trait Onlooker {
    /// The drive did this, and its session is now as it is lent here.
    fn look<D: Disk>(&mut self, did: &StepDone, session: &Session<D>);
}

impl Onlooker for Nobody {
    fn look<D: Disk>(&mut self, _did: &StepDone, _session: &Session<D>) {}
}
