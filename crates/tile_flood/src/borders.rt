//! Finds the bands of rows in which a mending can't have changed a border between labels.
ghost use Rattle.std.specs.Prelude.{◌≡◌, ◌<◌, ◌*◌, ℕ, true, false, IfOk, IsTrue, length, slice_index, slice_index_or};
ghost use Rattle.lattice.specs.Block.{is_beside};
ghost use Rattle.labelling.specs.Blocks.{is_marked};
ghost use Rattle.tile_flood.specs.Restoring.{AreMarks};
ghost use Rattle.tile_flood.specs.Bands.{AreOffBorders, IsOffBorder};
ghost use Rattle.tile_flood.specs.declared.affected.Affected.{Affected as AffectedOf};

use crate::affected::{Affected, window_point};
use crate::bands::BAND;
use crate::flood::Flood;
use crate::values::label_at;
use std::alloc::{AllocError, Global};

impl Flood {
    // For each band of rows, whether a border between labels, or a level next to one, may have changed in it. An affected
    // point changed neither if it has its old label, and so has each marked point next to it.
    pub(crate) fn changed_bands(&self, alloc: Global, n: usize) -> Result<Vec<bool>, AllocError>
        requires marks { AreMarks n self.now.levels.items self.now.labels.items }
        requires inside { (j : ℕ) (d : AffectedOf) → j < length self.now.affected.items
            → (slice_index_or self.now.affected.items j d).point < n * n }
        ensures { IfOk result (λ changed. AreOffBorders n self.now.levels.items self.now.labels.items changed.items self.now.affected.items (length self.now.affected.items)) }
    {
        let mut changed = vec![in alloc; false; n / BAND + 1]?;
        for k in 0..self.affected.len() {
            let affected = self.affected[k];
            self.look_at_affected(n, affected, &mut changed);
        }
        Ok(changed)
    }

    // Marks the bands of the affected point's row and of the row above as changed, unless the point lies off borders.
    fn look_at_affected(&self, n: usize, affected: Affected, changed: &mut Vec<bool>)
        requires marks { AreMarks n self.now.levels.items self.now.labels.items }
        requires inside { affected.point < n * n }
        ensures still { (b : ℕ) → slice_index_or changed.new.items b true ≡ false → slice_index_or changed.old.items b true ≡ false }
        ensures off { (b : ℕ) → slice_index_or changed.new.items b true ≡ false
            → IsOffBorder n self.now.levels.items self.now.labels.items b affected }
    {
        if self.has_label_around(n, affected.point as usize, affected.label) {
            return;
        }
        let row = affected.point as usize / n;
        set_changed(changed, row / BAND);
        set_changed(changed, row.saturating_sub(1) / BAND);
    }

    // Whether the point and each marked point next to it have this label.
    fn has_label_around(&self, n: usize, point: usize, label: u16) -> bool
        requires marks { AreMarks n self.now.levels.items self.now.labels.items }
        requires point { point < n * n }
        ensures { IsTrue result → (z : ℕ) → z < n * n → IsTrue (is_beside n point z)
            → IsTrue (is_marked self.now.levels.items z)
            → slice_index self.now.labels.items z ≡ label }
    {
        for d in 0..9 {
            if let Some(e) = window_point(n, point, d) {
                if self.is_marked(e) && label_at(&self.labels, e) != label {
                    return false;
                }
            }
        }
        true
    }
}

// Marks the band as changed. Bands beyond the list count as changed.
fn set_changed(changed: &mut Vec<bool>, band: usize)
    ensures set { slice_index_or changed.new.items band true ≡ true }
    ensures still { (b : ℕ) → slice_index_or changed.new.items b true ≡ false → slice_index_or changed.old.items b true ≡ false }
{
    if band < changed.len() {
        changed[band] = true;
    }
}
