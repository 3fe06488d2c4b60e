//! Calls of stores, each in a function without promises. So a test doesn't carry along a store's promises, which it
//! doesn't need, and which a prover would read at each of its steps. The calls work on any disk. For the same reason no
//! store is dropped where a `?` may return.
use disk::{Disk, MemDisk};
use lattice::{Corner, Refusal};
use memory_store::store_in_memory;
use std::alloc::Global;
use std::test::Fail;
use store::{Event, Reply, Store};

/// A store's answers about itself, without its disk.
#[derive(Clone, Copy, PartialEq, Eq)]
pub(crate) struct Numbers {
    pub(crate) version: u32,
    pub(crate) side: u32,
    pub(crate) capacity: u32,
    pub(crate) count: u64,
    pub(crate) commits: u64,
}

pub(crate) fn known<D: Disk>(store: &Store<D>) -> Numbers {
    Numbers {
        version: store.version(),
        side: store.side(),
        capacity: store.capacity(),
        count: store.count(),
        commits: store.commits(),
    }
}

pub(crate) fn is_stale<D: Disk>(store: &Store<D>, corner: Corner) -> bool {
    store.stale(corner)
}

/// An empty store in this version with this side and capacity, one page a plane, on the smallest disk.
pub(crate) fn empty_store(
    alloc: Global,
    version: u32,
    side: u32,
    capacity: u32,
) -> Result<Store<MemDisk>, Fail> {
    if version == 2 {
        let sectors = capacity.saturating_mul(12).saturating_add(10);
        return Ok(store_in_memory(alloc, sectors, side, capacity)?);
    }
    let sectors = capacity.saturating_mul(8).saturating_add(8);
    let mut disk = MemDisk::new(alloc, sectors)?;
    format(&mut disk, version, side, capacity)?;
    opened(alloc, disk)
}

/// Makes an empty store of this version on the disk.
pub(crate) fn format<D: Disk>(
    disk: &mut D,
    version: u32,
    side: u32,
    capacity: u32,
) -> Result<(), Refusal> {
    if version == 1 {
        Store::format_1(disk, side, capacity)
    } else {
        Store::format(disk, side, capacity)
    }
}

/// Opens the disk. A refusal returns the disk.
pub(crate) fn open<D: Disk>(alloc: Global, disk: D) -> Result<Store<D>, (Refusal, D)> {
    match Store::open(alloc, disk) {
        Ok(store) => Ok(store),
        Err(not_opened) => Err((not_opened.refusal, not_opened.disk)),
    }
}

pub(crate) fn opened<D: Disk + Drop>(alloc: Global, disk: D) -> Result<Store<D>, Fail> {
    match open(alloc, disk) {
        Ok(store) => Ok(store),
        Err((refusal, _)) => Err(refusal.into()),
    }
}

pub(crate) fn reopen<D: Disk>(store: &mut Store<D>) -> Result<(), Refusal> {
    store.reopen()
}

pub(crate) fn into_disk<D: Disk>(store: Store<D>) -> D {
    store.into_disk()
}

pub(crate) fn upgrade<D: Disk>(store: &mut Store<D>) -> Result<(), Refusal> {
    store.upgrade()
}

pub(crate) fn seams<D: Disk>(store: &mut Store<D>) -> Result<u64, Refusal> {
    store.seams()
}

/// Appends the replies to these events.
pub(crate) fn run<D: Disk>(
    store: &mut Store<D>,
    events: &[Event],
    replies: &mut Vec<Reply>,
) -> Result<(), Refusal> {
    store.run(events, replies)
}

/// The replies to these events.
pub(crate) fn replies<D: Disk>(
    alloc: Global,
    store: &mut Store<D>,
    events: &[Event],
) -> Result<Vec<Reply>, Fail> {
    let mut replies = Vec::new(alloc);
    run(store, events, &mut replies)?;
    Ok(replies)
}

/// The replies of a store on the disk, its answers about itself afterwards, and the disk.
pub(crate) fn replies_on<D: Disk + Drop>(
    alloc: Global,
    disk: D,
    events: &[Event],
) -> Result<(Vec<Reply>, Numbers, D), Fail> {
    let mut store = opened(alloc, disk)?;
    let replies = replies(alloc, &mut store, events);
    let numbers = known(&store);
    let disk = into_disk(store);
    Ok((replies?, numbers, disk))
}

/// Whether the store gives these replies.
pub(crate) fn has_replies<D: Disk>(
    alloc: Global,
    store: &mut Store<D>,
    events: &[Event],
    expected: &[Reply],
) -> Result<bool, Fail> {
    Ok(replies(alloc, store, events)?.as_slice() == expected)
}
