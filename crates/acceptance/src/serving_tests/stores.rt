//! Tests of sessions on a store in memory whose disk fails one call.
use super::script::{check_replies, opened, replies, store, store_of_version_1};
use disk::{FaultOnceDisk, MemDisk};
use std::alloc::Global;
use std::process::Abort;
use std::test::Fail;
use store::Store;
use test_tiles::{Said, input_of};

/// Lines to a store that was reopened after others. Each call of the first line fails in turn.
#[derive(Clone, Copy)]
struct Faulty {
    shows: &'static str,
    before: &'static [Said<'static>],
    /// The numbers of calls of the opening and of the first line, in the first version and in the second.
    calls: [(u64, u64); 2],
    /// The replies if one of these calls fails.
    said: &'static [Said<'static>],
    /// The lines after a reopening, with their replies after a fault in the last of the calls, and after one in the
    /// others.
    after_last: &'static [Said<'static>],
    after_others: &'static [Said<'static>],
}

impl Faulty {
    fn calls_of(&self, version: u32) -> (u64, u64) {
        let [first, second] = self.calls;
        if version == 1 { first } else { second }
    }
}

// Without tiles an opening makes a sync and reads both gates and the root behind the open one. Later it reads both
// roots, and for a tile a record and, in the second version, an index page. An import writes a page, in the second
// version an index page, a record and a root, and makes a sync. It then opens the gate, and makes a sync. If the gate
// was open before, it is first closed and synced.
const FAULTS: [Faulty; 3] = [
    Faulty {
        shows: "a fault in the first import",
        before: &[],
        calls: [(4, 6), (4, 7)],
        said: &[
            ("import N00E000 $A", "ERR 20 Device"),
            ("elev 0 2", "ERR 22 Failed"),
            ("count", "OK 0"),
            ("export N00E000", "ERR 22 Failed"),
            ("tiles", "ERR 22 Failed"),
            ("wall 3 1 1", "ERR 22 Failed"),
        ],
        after_last: &[("count", "OK 1"), ("elev 0 2", "OK 5")],
        after_others: &[("count", "OK 0"), ("elev 0 2", "ERR 7 Outside")],
    },
    Faulty {
        shows: "a fault in the second import",
        before: &[("import N00E000 $A", "OK 1")],
        calls: [(6, 8), (7, 9)],
        said: &[
            ("import N00E001 $B", "ERR 20 Device"),
            ("elev 0 2", "ERR 22 Failed"),
            ("count", "OK 1"),
        ],
        after_last: &[
            ("count", "OK 2"),
            ("elev 0 2", "OK 5"),
            ("elev 1 4", "OK 1"),
        ],
        after_others: &[
            ("count", "OK 1"),
            ("elev 0 2", "OK 5"),
            ("elev 1 4", "ERR 7 Outside"),
        ],
    },
    Faulty {
        shows: "a fault in a question",
        before: &[("import N00E000 $A", "OK 1")],
        calls: [(6, 1), (7, 1)],
        said: &[("elev 0 2", "ERR 20 Device"), ("count", "OK 1")],
        after_last: &[("elev 0 2", "OK 5")],
        after_others: &[],
    },
];

/// A reopened store of this version, on a disk that fails this call.
fn failing_store(
    alloc: Global,
    version: u32,
    before: &[Said],
    call: u64,
) -> Result<Store<FaultOnceDisk<MemDisk>>, Fail> {
    let mut fresh = if version == 1 {
        store_of_version_1(alloc, 3, 2)?
    } else {
        store(alloc, 3, 2)?
    };
    let lines = input_of(alloc, before)?;
    replies(alloc, &mut fresh, &lines)?;
    opened(alloc, FaultOnceDisk::new(fresh.into_disk(), call))
}

/// The replies to these lines after the store's disk was reopened.
fn replies_again(
    alloc: Global,
    store: Store<FaultOnceDisk<MemDisk>>,
    said: &[Said],
) -> Result<Vec<u8>, Fail> {
    let mut again = opened(alloc, store.into_disk())?;
    replies(alloc, &mut again, &input_of(alloc, said)?)
}

// Makes this call of the first line fail, and compares the replies then and after the disk was reopened.
fn check_fault(
    rt: &impl Abort,
    alloc: Global,
    faulty: &Faulty,
    version: u32,
    call: u64,
) -> Result<(), Fail> {
    let (to_open, calls) = faulty.calls_of(version);
    let failing_call = to_open.saturating_add(call);
    let mut failing = failing_store(alloc, version, faulty.before, failing_call)?;
    let row = (faulty.shows, "version", version, "call", call);
    let found = replies(alloc, &mut failing, &input_of(alloc, faulty.said)?)?;
    check_replies(rt, alloc, &row, &found, faulty.said)?;
    let is_last = call.saturating_add(1) == calls;
    let said = if is_last {
        faulty.after_last
    } else {
        faulty.after_others
    };
    let found = replies_again(alloc, failing, said)?;
    check_replies(rt, alloc, &row, &found, said)
}

fn check_faults(rt: &impl Abort, alloc: Global, faulty: &Faulty, version: u32) -> Result<(), Fail> {
    let (_, calls) = faulty.calls_of(version);
    for call in 0..calls {
        check_fault(rt, alloc, faulty, version, call)?;
    }
    Ok(())
}

#[test]
fn a_fault_at_each_call_of_a_line(rt: HostRuntime) -> Result<(), Fail> {
    for faulty in FAULTS.iter() {
        check_faults(&rt, rt.alloc(), faulty, 1)?;
        check_faults(&rt, rt.alloc(), faulty, 2)?;
    }
    Ok(())
}
