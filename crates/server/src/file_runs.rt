//! The law of runs of the program on one file. The function does nothing: its contract is the law.
ghost use Rattle.std.specs.Prelude.{ℕ};
ghost use Rattle.std.specs.declared.marker.Brand.{Brand};
ghost use Rattle.disk.specs.Disk.{Image};
ghost use Rattle.disk.specs.FileWorlds.{giving};
ghost use Rattle.disk.specs.declared.file.FileDisk.{FileDisk};
ghost use Rattle.server.specs.FileRuns.{RunsCompose};

use crate::places::Places;

/// `format` made a store of a file and ended with status 0. Any runs of [`crate::carry_out`] follow, each on what the
/// one before it left, ended or stopped at any moment. Then each opening that succeeds finds the mosaic after the
/// accepted commands, as [`store::sessions_compose`] says. A run without a session, such as a later `format`, had no
/// disk, or that of a file that it made.
pub fn runs_compose<P: Places>()
    ensures any { RunsCompose (λ (one : Unit {0}). P.File.Disk) }

    // The law is true for the system's files, too; each run's reads may give other images.
    ensures files { RunsCompose {D = FileDisk Brand} (λ (images : ℕ → Image). giving images) }
{}
