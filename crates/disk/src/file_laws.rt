//! Laws of the record that shows a file honest. Each function does nothing: its contract is the law.
ghost use Rattle.disk.specs.FileLaws.{RunsHaveHonestRecords, DisksHaveHonestRecords, FalseReadsShow, LostWritesShow};

use crate::Disk;

/// A disk that behaves as the model says has an honest record, whatever it answers, faults included.
pub fn runs_have_honest_records()
    ensures { RunsHaveHonestRecords }
{}

/// An honest disk has an honest record, whatever it answers, and a stop leaves no more than the record says.
pub fn disks_have_honest_records<D: Disk>()
    ensures { DisksHaveHonestRecords D.Disk }
{}

/// A file whose reads give other bytes than the images have isn't honest.
pub fn false_reads_show()
    ensures { FalseReadsShow }
{}

/// A file whose read doesn't give what was written isn't honest, whatever its images.
pub fn lost_writes_show()
    ensures { LostWritesShow }
{}
