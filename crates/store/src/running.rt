//! Runs of events.
ghost use Rattle.std.specs.Prelude.{◌≡◌, ◌≤◌, ◌++◌, List, IfErr, OnErr, OnOk};
ghost use Rattle.lattice.specs.declared.refusal.Refusal.TheVariants.{NoMemory};
ghost use Rattle.store.specs.Calls.{Runs};
ghost use Rattle.store.specs.Stores.{disk_of};
ghost use Rattle.engine.specs.declared.event.Reply.{Reply};

use crate::Store;
use disk::Disk;
use engine::{Engine, Event, Reply};
use lattice::Refusal;

impl<D: Disk> Store<D> {
    /// Answers the events in order, and appends a reply for each to `out`. A refused event has its refusal as its
    /// reply, and the run goes on. Refused with NoMemory if there is no room for the replies, and then nothing was
    /// done.
    pub fn run(&mut self, events: &[Event], out: &mut Vec<Reply>) -> Result<(), Refusal>
        ensures size { D.size (disk_of self.new) ≡ D.size (disk_of self.old) }
        ensures later { D.failures (disk_of self.old) ≤ D.failures (disk_of self.new) }
        ensures honest { D.honest (disk_of self.new) → D.honest (disk_of self.old) }

        // The only refusal is NoMemory, before the first event.
        ensures refused { IfErr result (λ r. r ≡ NoMemory) }
        ensures nothing { OnErr result (self.new ≡ self.old) }
        ensures kept { OnErr result (out.new.items ≡ out.old.items) }

        // After Ok the new replies are those of a run of the events, from each state that the store may have been in.
        ensures ran { OnOk result ((replies : List Reply) × (out.new.items ≡ out.old.items ++ replies)
            × Runs D.Disk self.old self.new events.now replies) }
    {
        if out.try_reserve(events.len()).is_err() {
            return Err(Refusal::NoMemory);
        }
        for event in events {
            let reply = self.answer(event);
            let _ = out.push(reply);
        }
        Ok(())
    }
}
