//! Sessions of a store, and the law about sessions that follow one another.
ghost use Rattle.std.specs.Prelude.{◌≡◌, ◌++◌, ℕ, List, IfErr, OnErr, OnOk};
ghost use Rattle.std.specs.declared.marker.Brand.{Brand};
ghost use Rattle.disk.specs.Disk.{Image};
ghost use Rattle.disk.specs.FileWorlds.{giving};
ghost use Rattle.disk.specs.declared.file.FileDisk.{FileDisk};
ghost use Rattle.engine.specs.declared.event.Reply.{Reply};
ghost use Rattle.lattice.specs.declared.refusal.Refusal.TheVariants.{NoMemory};
ghost use Rattle.store.specs.Sessions.{IsMade, IsOpening, MakesCallsOf, SessionsCompose, Upgraded};

use crate::Store;
use cow_tree::NotOpened;
use disk::Disk;
use engine::{Event, Reply};
use lattice::Refusal;
use std::alloc::Global;

/// Begins a session: [`Store::open`], with all promises of an opening in a session.
pub fn open_session<D: Disk>(alloc: Global, disk: D) -> Result<Store<D>, NotOpened<D>>
    ensures { IsOpening D.Disk disk result }
{
    Store::open(alloc, disk)
}

/// Answers events in a session: [`Store::run`], with the calls that it makes.
pub fn run_in_session<D: Disk>(
    store: &mut Store<D>,
    events: &[Event],
    out: &mut Vec<Reply>,
) -> Result<(), Refusal>
    ensures ran { OnOk result ((replies : List Reply) × (out.new.items ≡ out.old.items ++ replies)
        × MakesCallsOf D.Disk store.old store.new events.now replies) }

    // The only refusal is NoMemory, before the first event.
    ensures refused { IfErr result (λ r. r ≡ NoMemory) }
    ensures nothing { OnErr result (store.new ≡ store.old) }
{
    store.run(events, out)
}

/// Upgrades a store in a session: [`Store::upgrade`], with all its promises in a session.
pub fn upgrade_in_session<D: Disk>(store: &mut Store<D>) -> Result<(), Refusal>
    ensures { IsMade D.Disk store.old (Upgraded result) store.new }
{
    store.upgrade()
}

/// The law of sessions that follow one another. The function does nothing: its contract is the law.
///
/// Any sessions are made. Each begins with an opening on what the one before it left, and ends, is refused, or is
/// stopped at any moment. Then each opening that succeeds finds the mosaic after the accepted commands: those that the
/// opening before it found, every one answered Done since, and then at most the one in doubt. Each is whole and in its
/// order. What an opening finds, later ones find; what it doesn't find, no later one does.
pub fn sessions_compose<D: Disk>()
    ensures any { SessionsCompose (λ (one : Unit {0}). D.Disk) }

    // The law is true for a file that is opened again for each session, too; its reads may give other images each time.
    ensures file { SessionsCompose {D = FileDisk Brand} (λ (images : ℕ → Image). giving images) }
{}
