//! How burns and walls change a point's height.
ghost use Rattle.std.specs.Prelude.{◌≡◌, ◌≢◌, negsuc, ◌-ℤ◌, int_lt, true, false, IsTrue, IfOk, IfErr, MatchResult};
ghost use Rattle.lattice.specs.Mosaic.{void};
ghost use Rattle.lattice.specs.declared.refusal.Refusal.TheVariants.{TooDeep};
ghost use Rattle.edits.specs.PointEdits.{edited_metres, depth_of, is_fault};

use lattice::Refusal;

// The lowest and the greatest height in metres, and the greatest depth.
pub(crate) const LOWEST: i32 = -32767;

pub(crate) const HIGHEST: i32 = 32767;

pub(crate) const DEEPEST: i32 = 32767;

/// The change of a named point's height, in metres.
#[derive(Clone, Copy)]
pub(crate) enum PointEdit {
    /// Lowers the height by this depth.
    Lower { by: u16 },
    /// Raises a lower height to this one.
    Raise { to: i16 },
}

impl PointEdit {
    // The new height; TooDeep if it would be below the lowest height.
    pub(crate) fn of(self, metres: i16) -> Result<i16, Refusal>
        ensures sample { IfOk result (λ s. s ≡ edited_metres self metres) }
        ensures deep { metres ≢ void
            → MatchResult result (λ s. int_lt (metres -ℤ depth_of self) (negsuc 32766) ≡ false) (λ r. int_lt (metres -ℤ depth_of self) (negsuc 32766)
            ≡ true) }
        ensures refusal { IfErr result (λ r. (r ≡ TooDeep) × IsTrue (is_fault self r)) }
    {
        match self {
            PointEdit::Lower { by } => {
                let lowered = i32::from(metres) - i32::from(by);
                if lowered < LOWEST {
                    return Err(Refusal::TooDeep);
                }
                Ok(lowered as i16)
            }
            PointEdit::Raise { to } => Ok(metres.max(to)),
        }
    }
}
