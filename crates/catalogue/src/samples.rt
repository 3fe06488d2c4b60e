//! The trait for sources of samples.
ghost use Rattle.std.specs.Prelude.{◌≡◌, ◌≤◌, ◌<◌, ◌+◌, ◌*◌, ◌↔◌, ℕ, List, length, IsTrue, IsOk, IfOk, IfErr, OnOk, OnErr, Contains};
ghost use Rattle.std.specs.List.{AllAdjacentBelow};
ghost use Rattle.lattice.specs.Corners.{Corner};
ghost use Rattle.lattice.specs.Lattice.{IsBefore};
ghost use Rattle.lattice.specs.Mosaic.{Mosaic, IsMosaic, AreSinks};
ghost use Rattle.lattice.specs.declared.point.Point.{Point};
ghost use Rattle.lattice.specs.declared.refusal.Refusal.TheVariants.{Device, NoMemory};
ghost use Rattle.catalogue.specs.Reading.{IsSampleOf, AreSamplesOf, MayRefuse};
ghost use Rattle.catalogue.specs.Tiles.{corners_of};
ghost use Rattle.catalogue.specs.Tables.{AreCorners};

use lattice::{Corner, Point, Refusal, Side};

/// Tiles whose samples can be read, singly or many at once: from memory or from a disk.
///
/// A read may be refused with Device (the disk failed in it), Failed (the disk failed before) or Damaged. It never
/// changes a tile or a sample.
pub trait Samples {
    /// The side of the tiles.
    ghost side_of: { Self → ℕ };

    /// The corners of the tiles, in order, from memory.
    ghost corners: { Self → List Corner };

    /// The declared sinks, in the order of points, from memory.
    ghost sinks_of: { Self → List Point };

    /// The mosaic of the samples, if they are honest.
    ghost mosaic: { Self → Mosaic };

    /// The samples are those of the mosaic. A read may show that they aren't, and no call makes them honest again. So a
    /// clause that assumes honesty after a call is about samples that were honest before it, too.
    ghost is_honest: { Self → Type 0 };

    /// What reading leaves unchanged, on any disk: only reads may lead from the old value to the new one.
    ghost keeps: { Self → Self → Type 0 };

    /// The number of failed calls of the disk. At the largest 64-bit number the count stays; a further failure then
    /// counts as a rise.
    ghost failures: { Self → ℕ };

    /// No read has failed since the opening, so reads are still tried.
    ghost is_ready: { Self → Type 0 };

    /// No read is ever refused, as for samples in memory.
    ghost never_refuses: { Self → Type 0 };

    /// The side of the tiles.
    fn side(&self) -> Side
        ensures { result ≡ side_of self.now };

    /// Whether the corner's tile is present.
    fn present(&self, c: Corner) -> bool
        ensures answer { IsTrue result ↔ Contains (corners self.now) c }
        ensures in_order { AllAdjacentBelow IsBefore (corners self.now) (length (corners self.now)) }
        ensures whole_degrees { AreCorners (corners self.now) };

    /// The number of present tiles.
    fn count(&self) -> usize
        ensures { result ≡ length (corners self.now) };

    /// The corners of the present tiles, in order. NoMemory is the only refusal.
    fn present_corners(&self) -> Result<Vec<Corner>, Refusal>
        ensures corners { IfOk result (λ found. found.items ≡ corners self.now) }
        ensures in_order { AllAdjacentBelow IsBefore (corners self.now) (length (corners self.now)) }
        ensures refusal { IfErr result (λ r. r ≡ NoMemory) };

    /// The declared sinks, in the order of points.
    fn sinks(&self) -> &[Point]
        ensures sinks { result.now ≡ sinks_of self.now }
        ensures valid { AreSinks (side_of self.now) (sinks_of self.now) };

    /// The sample at the index in the corner's tile: rows from the north, samples from the west.
    fn sample(&mut self, c: Corner, i: u32) -> Result<i16, Refusal>
        requires present { Contains (corners self.old) c }
        requires index { i < side_of self.old * side_of self.old }
        ensures sample { is_honest self.new
            → IfOk result (λ s. IsSampleOf (mosaic self.old) c i s) }

        // On any disk a refusal is Device, after which the count of failures has risen, or Failed or Damaged.
        ensures refusal { IfErr result (MayRefuse (failures self.old) (failures self.new)) }

        // If the samples were ready, the only refusal is Device.
        ensures only_device { is_ready self.old → IfErr result (λ r. r ≡ Device) }
        ensures ready { is_ready self.old → OnOk result (is_ready self.new) }

        // After a refusal no further read is tried.
        ensures unready { OnErr result (¬ is_ready self.new) }
        ensures answers { never_refuses self.old → IsOk result }
        ensures never_refuses { never_refuses self.old → never_refuses self.new }
        ensures side { side_of self.new ≡ side_of self.old }
        ensures corners { corners self.new ≡ corners self.old }
        ensures sinks { sinks_of self.new ≡ sinks_of self.old }
        ensures failures { failures self.old ≤ failures self.new }

        // No call makes dishonest samples honest.
        ensures honest { is_honest self.new → is_honest self.old }
        ensures mosaic { is_honest self.new → mosaic self.new ≡ mosaic self.old }
        ensures keeps { keeps self.old self.new };

    /// Reads samples of the corner's tile into the slice, from index `first` on. After a refusal the slice may contain
    /// anything.
    fn read_samples(&mut self, c: Corner, first: u32, into: &mut [i16]) -> Result<(), Refusal>
        requires present { Contains (corners self.old) c }
        requires range { first + length into.old ≤ side_of self.old * side_of self.old }
        ensures samples { is_honest self.new
            → OnOk result (AreSamplesOf (mosaic self.old) c first into.new) }
        ensures length { length into.new ≡ length into.old }

        // On any disk a refusal is Device, after which the count of failures has risen, or Failed or Damaged.
        ensures refusal { IfErr result (MayRefuse (failures self.old) (failures self.new)) }

        // If the samples were ready, the only refusal is Device.
        ensures only_device { is_ready self.old → IfErr result (λ r. r ≡ Device) }
        ensures ready { is_ready self.old → OnOk result (is_ready self.new) }

        // After a refusal no further read is tried.
        ensures unready { OnErr result (¬ is_ready self.new) }
        ensures answers { never_refuses self.old → IsOk result }
        ensures never_refuses { never_refuses self.old → never_refuses self.new }
        ensures side { side_of self.new ≡ side_of self.old }
        ensures corners { corners self.new ≡ corners self.old }
        ensures sinks { sinks_of self.new ≡ sinks_of self.old }
        ensures failures { failures self.old ≤ failures self.new }

        // No call makes dishonest samples honest.
        ensures honest { is_honest self.new → is_honest self.old }
        ensures mosaic { is_honest self.new → mosaic self.new ≡ mosaic self.old }
        ensures keeps { keeps self.old self.new };

    /// Honest samples are those of a mosaic.
    ghost is_mosaic: { (s : Self) → is_honest s → IsMosaic (mosaic s) };

    /// The mosaic has this side.
    ghost same_side: { (s : Self) → is_honest s → (mosaic s).side ≡ side_of s };

    /// The mosaic has these corners.
    ghost same_corners: { (s : Self) → is_honest s → corners_of (mosaic s) ≡ corners s };

    /// The mosaic has these sinks.
    ghost same_sinks: { (s : Self) → is_honest s → (mosaic s).sinks ≡ sinks_of s };

    /// Doing nothing counts as reading.
    ghost keeps_itself: { (s : Self) → keeps s s };

    /// Reads one after another count as reading.
    ghost keeps_on: { (a b c : Self) → keeps a b → keeps b c → keeps a c };

    /// Samples that never refuse are honest.
    ghost sure_is_honest: { (s : Self) → never_refuses s → is_honest s };
}
