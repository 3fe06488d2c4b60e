//! Tests of stops and faults at each call of each change and of an opening, on stores of tiles of side 3.
use super::change::{CHANGES, Row, UPGRADES, make, prepared_disk};
use super::fixtures::{HERE, at, opened, store_of};
use super::standing::{Model, Standing};
use cow_tree::NotOpened;
use disk::{Disk, FaultOnceDisk, FuseDisk, MemDisk, Torn};
use edits::Command;
use lattice::{Height, Refusal};
use std::alloc::Global;
use std::fmt::Debug;
use std::test::Fail;
use store::Store;
use test_tiles::{A, check_row};

// The number of calls of opening a store of the first version with one tile: a sync, both gates, both roots and a
// record.
const CALLS_TO_OPEN: u64 = 6;

/// More calls of the disk than opening one of these stores and changing it makes.
pub(crate) const MANY_CALLS: u64 = 120;

/// What a stop leaves of unsettled gates, and of other unsettled sectors.
pub(crate) const STOPS: [(Torn, Torn); 6] = [
    (Torn::Old, Torn::Old),
    (Torn::New, Torn::New),
    (Torn::Fill(0), Torn::Fill(0)),
    (Torn::Fill(0xa7), Torn::Fill(0xa7)),
    (Torn::Fill(0), Torn::Old),
    (Torn::Fill(0xa7), Torn::Old),
];

// Where a change is stopped or meets a fault: the number of disk calls before, and what a stop leaves.
type Place = (u64, Option<(Torn, Torn)>);

// A store of a version before a change, and its expected states before and after the change.
#[derive(Drop)]
struct Case {
    version: u32,
    row: Row,
    before: Standing,
    after: Standing,
}

impl Case {
    fn new(alloc: Global, version: u32, row: Row) -> Result<Case, Fail> {
        let (capacity, prepared, change) = row;
        let mut model = Model::new(alloc, version, capacity)?;
        for change in prepared {
            model.make(change)?;
        }
        let before = model.standing()?;
        model.make(change)?;
        let after = model.standing()?;
        Ok(Case {
            version,
            row,
            before,
            after,
        })
    }

    fn disk(&self, alloc: Global) -> Result<MemDisk, Fail> {
        prepared_disk(alloc, self.version, self.row)
    }

    // A failure with what was found there, for messages.
    fn fails<F: Debug + Drop>(&self, place: Place, found: F) -> Fail {
        (found, self.version, place, self.row).into()
    }
}

// Whether an opening finds the change made; all answers of the store have to agree.
fn finds_made(
    alloc: Global,
    disk: MemDisk,
    case: &Case,
    place: Place,
) -> Result<(MemDisk, bool), Fail> {
    let mut store = opened(alloc, disk)?;
    let made = store.commits() != case.before.commits;
    let standing = if made { &case.after } else { &case.before };
    if !standing.is_of(alloc, &mut store)? {
        return Err(case.fails(place, "neither of the two stores"));
    }
    Ok((store.into_disk(), made))
}

/// Opens the disk's store and makes the change, with this many calls of the disk. Answers the refusal, if it is
/// refused.
pub(crate) fn make_with(
    alloc: Global,
    disk: MemDisk,
    calls: u64,
    change: &str,
) -> Result<(MemDisk, Option<Refusal>), Fail> {
    match Store::open(alloc, FuseDisk::new(disk, calls)) {
        Ok(mut store) => {
            let refused = make(alloc, &mut store, change)?;
            Ok((store.into_disk().into_inner(), refused))
        }
        Err(NotOpened { disk, refusal }) => Ok((disk.into_inner(), Some(refusal))),
    }
}

/// The disk after the stop.
pub(crate) fn stopped(disk: MemDisk, stop: (Torn, Torn)) -> Result<MemDisk, Fail> {
    let mut disk = disk;
    for gate in [0, 2] {
        if gate < disk.sectors() {
            disk.stop_at(gate, stop.0)?;
        }
    }
    disk.stop(stop.1)?;
    Ok(disk)
}

// Opens the store repeatedly, each time up to a stop one call later, until it is open.
fn stopped_in_openings(alloc: Global, disk: MemDisk, stop: (Torn, Torn)) -> Result<MemDisk, Fail> {
    let mut disk = disk;
    for calls in 0..MANY_CALLS {
        match Store::open(alloc, FuseDisk::new(disk, calls)) {
            Ok(store) => return stopped(store.into_disk().into_inner(), stop),
            Err(not_opened) => disk = stopped(not_opened.disk.into_inner(), stop)?,
        }
    }
    Err("no opening has calls enough".into())
}

// Stops the change after this many calls, in this way. Answers whether it was complete by then.
fn stop_so(alloc: Global, calls: u64, stop: (Torn, Torn), case: &Case) -> Result<bool, Fail> {
    let (_, _, change) = case.row;
    let place = (calls, Some(stop));
    let (disk, refused) = make_with(alloc, case.disk(alloc)?, calls, change)?;
    let through = refused.is_none();
    if !through && refused != Some(Refusal::Device) {
        return Err(case.fails(place, refused));
    }
    let (disk, made) = finds_made(alloc, stopped(disk, stop)?, case, place)?;
    if through && !made {
        return Err(case.fails(place, "an acknowledged change is gone"));
    }
    let disk = stopped_in_openings(alloc, disk, stop)?;
    let (_, again) = finds_made(alloc, disk, case, place)?;
    if again != made {
        return Err(case.fails(place, "an opening changed the store"));
    }
    Ok(through)
}

// Stops the change after this many calls, in each way. Answers whether it was complete by then.
fn stop_after(alloc: Global, calls: u64, case: &Case) -> Result<bool, Fail> {
    let mut through = false;
    for stop in STOPS {
        through = stop_so(alloc, calls, stop, case)?;
    }
    Ok(through)
}

// Stops the change after each call, until it is complete. Answers whether it ever is.
fn stop_after_each(alloc: Global, case: &Case) -> Result<bool, Fail> {
    for calls in 0..MANY_CALLS {
        if stop_after(alloc, calls, case)? {
            return Ok(true);
        }
    }
    Ok(false)
}

fn stop_each_change(alloc: Global, version: u32, rows: &[Row]) -> Result<(), Fail> {
    for row in rows {
        let case = Case::new(alloc, version, *row)?;
        let through = stop_after_each(alloc, &case)?;
        check_row(&("a change that isn't through", version, *row), through)?;
    }
    Ok(())
}

#[test]
fn a_stop_after_each_call_by_the_first_version(rt: HostRuntime) -> Result<(), Fail> {
    stop_each_change(rt.alloc(), 1, &CHANGES)
}

#[test]
fn a_stop_after_each_call_by_the_second_version(rt: HostRuntime) -> Result<(), Fail> {
    stop_each_change(rt.alloc(), 2, &CHANGES)
}

#[test]
fn a_stop_after_each_call_of_an_upgrade(rt: HostRuntime) -> Result<(), Fail> {
    stop_each_change(rt.alloc(), 1, &UPGRADES)
}

// Whether each call that can refuse is refused with Failed.
fn refuses_all<D: Disk>(store: &mut Store<D>) -> bool {
    let point = at(0, 2);
    let failed = Some(Refusal::Failed);
    store.apply(&Command::Remove { corner: HERE }).err() == failed
        && store.step().err() == failed
        && store.upgrade().err() == failed
        && store.elevation(point).err() == failed
        && store.fill(point).err() == failed
        && store.direction(point).err() == failed
        && store.trace(point).err() == failed
        && store.watershed(point).err() == failed
        && store.export(HERE).err() == failed
        && store.tiles().err() == failed
        && store.sinks().err() == failed
        && store.seams().err() == failed
}

// Makes this call of the opening or of the change fail. Answers whether the change is made then; none if there is no
// such call.
fn fault_at(alloc: Global, call: u64, case: &Case) -> Result<Option<bool>, Fail> {
    match Store::open(alloc, FaultOnceDisk::new(case.disk(alloc)?, call)) {
        Ok(store) => fault_in_change(alloc, store, case, call),
        Err(NotOpened { disk, refusal }) => {
            let (_, made) = finds_made(alloc, disk.into_inner(), case, (call, None))?;
            Ok((refusal == Refusal::Device).then_some(made))
        }
    }
}

// Makes this call of the change fail, after the store was opened.
fn fault_in_change(
    alloc: Global,
    store: Store<FaultOnceDisk<MemDisk>>,
    case: &Case,
    call: u64,
) -> Result<Option<bool>, Fail> {
    let (_, _, change) = case.row;
    let place = (call, None);
    let mut store = store;
    let Some(refusal) = make(alloc, &mut store, change)? else {
        return Ok(None);
    };
    let made = is_made_after(&mut store, refusal, case, place)?;
    let (_, again) = finds_made(alloc, store.into_disk().into_inner(), case, place)?;
    if again != made {
        return Err(case.fails(place, "reopened elsewhere"));
    }
    Ok(Some(made))
}

// Whether a store that refused the change for a fault has made it after a reopening.
fn is_made_after<D: Disk>(
    store: &mut Store<D>,
    refusal: Refusal,
    case: &Case,
    place: Place,
) -> Result<bool, Fail> {
    if refusal != Refusal::Device || !refuses_all(store) {
        return Err(case.fails(place, (refusal, "not failed")));
    }
    if store.commits() != case.before.commits || store.reopen().is_err() {
        return Err(case.fails(place, "not reopened"));
    }
    Ok(store.commits() != case.before.commits)
}

// Makes each call fail in turn. Answers whether the change is made after the last of these faults, in the last sync.
fn fault_at_each(alloc: Global, case: &Case) -> Result<bool, Fail> {
    let mut made = false;
    for call in 0..MANY_CALLS {
        let Some(found) = fault_at(alloc, call, case)? else {
            break;
        };
        if made {
            return Err(case.fails((call, None), "made by a fault before the last sync"));
        }
        made = found;
    }
    Ok(made)
}

fn fault_in_each_change(alloc: Global, version: u32, rows: &[Row]) -> Result<(), Fail> {
    for row in rows {
        let case = Case::new(alloc, version, *row)?;
        let made = fault_at_each(alloc, &case)?;
        let what = "not made by a fault in the last sync";
        check_row(&(what, version, *row), made)?;
    }
    Ok(())
}

#[test]
fn a_fault_at_each_call_by_the_first_version(rt: HostRuntime) -> Result<(), Fail> {
    fault_in_each_change(rt.alloc(), 1, &CHANGES)
}

#[test]
fn a_fault_at_each_call_by_the_second_version(rt: HostRuntime) -> Result<(), Fail> {
    fault_in_each_change(rt.alloc(), 2, &CHANGES)
}

#[test]
fn a_fault_at_each_call_of_an_upgrade(rt: HostRuntime) -> Result<(), Fail> {
    fault_in_each_change(rt.alloc(), 1, &UPGRADES)
}

#[test]
fn a_fault_in_a_read(rt: HostRuntime) -> Result<(), Fail> {
    let alloc = rt.alloc();
    let disk = store_of(alloc, 4, &[(HERE, A)])?.into_disk();
    let faulty = FaultOnceDisk::new(disk, CALLS_TO_OPEN);
    let mut store = opened(alloc, faulty)?;
    let point = at(0, 2);
    assert!(rt; store.elevation(point) == Err(Refusal::Device) && store.count() == 1);
    let mut again = opened(alloc, store.into_disk())?;
    assert!(rt; again.elevation(point) == Ok(Height::At(5)));
    Ok(())
}
