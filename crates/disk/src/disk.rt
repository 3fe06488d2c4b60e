//! The device that the layers above write to, and what is known of it.
ghost use Rattle.std.specs.Prelude.{◌≡◌, ◌≤◌, ◌<◌, ℕ, Bool, List, OnOk, is_ok};
ghost use Rattle.disk.specs.Disk.{Image, SameBut, TornAt, NoneNew, Only, counted, CountsFault, Elapses, Nothing};

use thiserror::Error;

/// A call of a disk failed. Its count of failures has risen.
#[derive(Clone, Copy, Debug, PartialEq, Eq, Error)]
#[error("the disk failed")]
pub struct Fault;

/// A device of a fixed number of sectors, each of 4096 bytes.
///
/// Reads see a write at once. The write survives a stop (a power cut) only after a later sync has answered Ok. Until
/// then a stop may leave any bytes in that sector. Source: this product's own disk model.
pub trait Disk {
    /// The disk has behaved as this contract says so far. A call may show that it doesn't, and no call makes it honest
    /// again. So a clause that assumes honesty after a call is about a disk that was honest before it, too. A disk that
    /// isn't honest promises only its number of sectors and its two counts.
    ghost honest: { Self → Type 0 };

    /// The number of sectors. No call changes it.
    ghost size: { Self → ℕ };

    /// The image that reads give now, sector by sector.
    ghost seen: { Self → Image };

    /// The images that a stop at this moment, between two calls, may leave. A sector is settled if all these images
    /// have the bytes that reads give.
    ghost may: { Self → Image → Type 0 };

    /// The present moment, as a number that never falls.
    ghost moment: { Self → ℕ };

    /// The images that a stop at some moment from a given one up to now might have left, inside a call or between two.
    ghost since: { Self → ℕ → Image → Type 0 };

    /// The number of failed calls. At the largest 64-bit number the count stays; a further failure then counts as a
    /// rise.
    ghost failures: { Self → ℕ };

    /// The number of writes asked for, including failed ones. The count stays at the largest 64-bit number.
    ghost writes: { Self → ℕ };

    /// A read of this sector succeeded or failed, with these bytes; the first disk is that before it, the second that after it.
    /// Only [`Disk::read`] makes it known, so what is said by it says in which order reads were made.
    ghost has_read: { Self → ℕ → Bool → List ℕ → Self → Type 0 };

    /// The number of sectors, which are numbered from 0.
    fn sectors(&self) -> u32
        ensures { result ≡ size self.now };

    /// Reads a sector. It changes nothing, even where it fails; then `into` may contain anything.
    fn read(&mut self, s: u32, into: &mut [u8; 4096]) -> Result<(), Fault>
        requires { s < size self.old }
        ensures size { size self.new ≡ size self.old }

        // The count of failures rises by one where the call fails, and only there.
        ensures failures { CountsFault (failures self.old) (failures self.new) result }
        ensures writes { writes self.new ≡ writes self.old }
        ensures has_read { has_read self.old s (is_ok result) into.new self.new }

        // A call never makes a dishonest disk honest.
        ensures honest { honest self.new → honest self.old }
        ensures read { honest self.new → OnOk result (into.new ≡ seen self.old s) }
        ensures seen { honest self.new → seen self.new ≡ seen self.old }

        // Each image that a stop after the call may leave is one that a stop before it might have left.
        ensures may { honest self.new → NoneNew (may self.old) (may self.new) }

        // A stop inside the call leaves no other image either.
        ensures time { honest self.new
            → Elapses (moment self.old) (moment self.new) (since self.old) (since self.new) Nothing };

    /// Puts bytes into a sector, which is unsettled until a sync answers Ok. After a write that fails, reads of the
    /// sector may give any bytes.
    fn write(&mut self, s: u32, from: &[u8; 4096]) -> Result<(), Fault>
        requires { s < size self.old }
        ensures size { size self.new ≡ size self.old }
        ensures failures { CountsFault (failures self.old) (failures self.new) result }

        // Each call of write counts, including one that fails.
        ensures writes { writes self.new ≡ counted (writes self.old) }
        ensures honest { honest self.new → honest self.old }
        ensures written { honest self.new → OnOk result (seen self.new s ≡ from.now) }
        ensures others { honest self.new → SameBut s (seen self.old) (seen self.new) }

        // After the call a stop may leave any bytes in this sector. In other sectors it leaves what it might have left
        // before.
        ensures may { honest self.new → NoneNew (TornAt s (may self.old)) (may self.new) }

        // The same is true for a stop inside the call.
        ensures time { honest self.new
            → Elapses (moment self.old) (moment self.new) (since self.old) (since self.new) (TornAt s (may self.old)) };

    /// Settles all unsettled sectors. After a sync that fails they are still unsettled, and reads of them may give any bytes.
    fn sync(&mut self) -> Result<(), Fault>
        ensures size { size self.new ≡ size self.old }
        ensures failures { CountsFault (failures self.old) (failures self.new) result }
        ensures writes { writes self.new ≡ writes self.old }
        ensures honest { honest self.new → honest self.old }

        // A stop leaves the image that reads gave, and no other.
        ensures durable { honest self.new → OnOk result (Only (seen self.old) (may self.new)) }
        ensures may { honest self.new → NoneNew (may self.old) (may self.new) }
        ensures time { honest self.new
            → Elapses (moment self.old) (moment self.new) (since self.old) (since self.new) Nothing };

    /// The image that reads give is one that a stop may leave.
    ghost seen_may: { (disk : Self) → honest disk → may disk (seen disk) };

    /// An image that a stop may leave now counts as left since any earlier moment.
    ghost counts_now: { (disk : Self) (t : ℕ) (c : Image)
        → honest disk → t ≤ moment disk → may disk c → since disk t c };

    /// Since the present moment, only the images of a stop now count.
    ghost only_now: { (disk : Self) (c : Image) → honest disk → since disk (moment disk) c
        → may disk c };
}
