//! Which root of a disk is current.
ghost use Rattle.std.specs.Prelude.{◌≡◌, ◌≤◌, ◌<◌, ◌⊎◌, true, false, Ok, Err, OnOk, IfOk, IfErr, IsErrOf};
ghost use Rattle.disk.specs.Disk.{Only, HasRisen};
ghost use Rattle.disk.specs.Stops.{AddsNothing, HasCause};
ghost use Rattle.lattice.specs.declared.refusal.Refusal.TheVariants.{Device};
ghost use Rattle.page_codec.specs.Roots.{format_of};
ghost use Rattle.page_codec.specs.Sizes.{sectors_asked};
ghost use Rattle.roots.specs.Slots.{is_open, gate, root_sector, IsAt};
ghost use Rattle.roots.specs.Opening.{Holds, refusal_of, later, chosen, fitting, OpensAs, IsRefusalOfOpening};
ghost use Rattle.roots.specs.declared.slot.Slot.TheVariants.{A, B};
ghost use Rattle.roots.specs.Found.{OnlyReads, HoldsBehind, FoundIn, found_as};

use crate::faults::device;
use crate::slot::{Slot, is_open_gate};
use disk::{Disk, Fault};
use lattice::Refusal;
use page_codec::{Damaged, FIXED_SECTORS, PAGE_BYTES, Root};

// The current root and its slot.
#[derive(Drop)]
pub(crate) struct Found {
    pub(crate) root: Root,
    pub(crate) slot: Slot,
    pub(crate) other_open: bool,
}

fn refusal_of(damaged: Damaged) -> Refusal
    ensures value { result ≡ refusal_of damaged }
    ensures refusal { IsRefusalOfOpening result }
{
    match damaged {
        Damaged::Magic => Refusal::NotAStore,
        Damaged::Version => Refusal::Version,
        Damaged::Rule => Refusal::Damaged,
    }
}

// Whether a slot's gate is open.
fn read_gate<D: Disk>(disk: &mut D, slot: Slot) -> Result<bool, Fault>
    requires { 4 ≤ D.size disk.old }
    ensures only_reads { OnlyReads D.Disk disk.old disk.new }
    ensures cause { HasCause (D.failures disk.old) (D.failures disk.new) result }
    ensures opened { D.honest disk.new
        → IfOk result (λ opened. is_open (D.seen disk.old (gate slot)) ≡ opened) }
{
    let mut bytes = [0; PAGE_BYTES];
    disk.read(slot.gate(), &mut bytes)?;
    Ok(is_open_gate(&bytes))
}

// The root behind a gate, if the gate is open.
fn read_root<D: Disk>(
    disk: &mut D,
    slot: Slot,
    opened: bool,
) -> Result<Option<Result<Root, Damaged>>, Fault>
    requires { 4 ≤ D.size disk.old }
    ensures only_reads { OnlyReads D.Disk disk.old disk.new }
    ensures cause { HasCause (D.failures disk.old) (D.failures disk.new) result }
    ensures held { D.honest disk.new
        → IfOk result (λ held. HoldsBehind opened slot (D.seen disk.old) held) }
{
    if !opened {
        return Ok(None);
    }
    let mut bytes = [0; PAGE_BYTES];
    disk.read(slot.root_sector(), &mut bytes)?;
    Ok(Some(Root::read(&bytes)))
}

// The contents of slots A and B: both gates are read, then the roots behind open gates.
fn read_slots<D: Disk>(
    disk: &mut D,
) -> Result<(Option<Result<Root, Damaged>>, Option<Result<Root, Damaged>>), Fault>
    requires { 4 ≤ D.size disk.old }
    ensures only_reads { OnlyReads D.Disk disk.old disk.new }
    ensures cause { HasCause (D.failures disk.old) (D.failures disk.new) result }
    ensures first { D.honest disk.new → IfOk result (λ held. Holds A (D.seen disk.old) held.0) }
    ensures second { D.honest disk.new → IfOk result (λ held. Holds B (D.seen disk.old) held.1) }
{
    let first_opened = read_gate(disk, Slot::A)?;
    let second_opened = read_gate(disk, Slot::B)?;
    let first = read_root(disk, Slot::A, first_opened)?;
    let second = read_root(disk, Slot::B, second_opened)?;
    Ok((first, second))
}

// Of two roots, the current one: the later.
fn later(a: Root, b: Root) -> Result<Found, Refusal>
    ensures answer { found_as result ≡ later a b }
    ensures refused { IfErr result IsRefusalOfOpening }
    ensures found { IfOk result (λ found. FoundIn found.slot found.other_open found.root (Some (Ok a)) (Some (Ok b))) }
{
    if a.number() < b.number() {
        Ok(Found {
            root: b,
            slot: Slot::B,
            other_open: true,
        })
    } else if b.number() < a.number() {
        Ok(Found {
            root: a,
            slot: Slot::A,
            other_open: true,
        })
    } else {
        Err(Refusal::Damaged)
    }
}

// The current root, from the contents of slots A and B.
fn choose(
    first: Option<Result<Root, Damaged>>,
    second: Option<Result<Root, Damaged>>,
) -> Result<Found, Refusal>
    ensures answer { found_as result ≡ chosen first second }
    ensures refused { IfErr result IsRefusalOfOpening }
    ensures found { IfOk result (λ found. FoundIn found.slot found.other_open found.root first second) }
{
    match (first, second) {
        (None, None) => Err(Refusal::NotAStore),
        (Some(Err(why)), _) => Err(refusal_of(why)),
        (_, Some(Err(why))) => Err(refusal_of(why)),
        (Some(Ok(root)), None) => Ok(Found {
            root,
            slot: Slot::A,
            other_open: false,
        }),
        (None, Some(Ok(root))) => Ok(Found {
            root,
            slot: Slot::B,
            other_open: false,
        }),
        (Some(Ok(a)), Some(Ok(b))) => later(a, b),
    }
}

// The root, if the disk has enough sectors for its side and capacity.
fn judge(
    first: Option<Result<Root, Damaged>>,
    second: Option<Result<Root, Damaged>>,
    sectors: u32,
) -> Result<Found, Refusal>
    ensures answer { found_as result ≡ fitting sectors (chosen first second) }
    ensures refused { IfErr result IsRefusalOfOpening }
    ensures found { IfOk result (λ found. FoundIn found.slot found.other_open found.root first second) }
{
    let found = choose(first, second)?;
    if sectors < sectors_for(&found.root) {
        return Err(Refusal::TooSmall);
    }
    Ok(found)
}

// The sectors that a store of this root's format needs.
fn sectors_for(root: &Root) -> u32
    ensures { result ≡ sectors_asked (format_of root.now) }
{
    root.format().sectors()
}

/// Syncs, and then only reads. A disk too small for the slots isn't read.
pub(crate) fn scan<D: Disk>(disk: &mut D) -> Result<Found, Refusal>
    ensures size { D.size disk.new ≡ D.size disk.old }
    ensures writes { D.writes disk.new ≡ D.writes disk.old }
    ensures later { D.failures disk.old ≤ D.failures disk.new }
    ensures device { IsErrOf result Device → HasRisen (D.failures disk.old) (D.failures disk.new) }
    ensures refused { IfErr result IsRefusalOfOpening }
    ensures nothing { D.honest disk.new → AddsNothing D.Disk disk.old disk.new }
    ensures seen { D.honest disk.new → OnOk result (D.seen disk.new ≡ D.seen disk.old) }
    ensures durable { D.honest disk.new → OnOk result (Only (D.seen disk.new) (D.may disk.new)) }
    ensures large { OnOk result (4 ≤ D.size disk.new) }
    ensures found { D.honest disk.new
        → IfOk result (λ found. IsAt found.slot found.other_open found.root (D.seen disk.new)) }
    ensures opens { D.honest disk.new
        → IsErrOf result Device ⊎ OpensAs (D.size disk.old) (D.seen disk.old) (found_as result) }
{
    device(disk.sync())?;
    if disk.sectors() < FIXED_SECTORS {
        return Err(Refusal::NotAStore);
    }
    let (first, second) = device(read_slots(disk))?;
    judge(first, second, disk.sectors())
}
