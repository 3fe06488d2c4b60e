//! Questions whose answers fill a slice.
ghost use Rattle.std.specs.Prelude.{ℕ, List, Option, Result, length};
ghost use Rattle.lattice.specs.Mosaic.{Mosaic};
ghost use Rattle.lattice.specs.declared.refusal.Refusal.{Refusal};
ghost use Rattle.windows.specs.Telling.{Asked, refusal_of};

use engine::Engine;
use lattice::Refusal;

/// A question about an engine's mosaic. It answers a value, and fills the caller's slice.
pub trait Question {
    type Answer: Copy;

    type Element;

    /// The refusal before anything is asked, for a slice of this length.
    ghost refused_first: { Self → ℕ → Option Refusal };

    /// The number of calls, if none is refused.
    ghost count: { Self → ℕ };

    /// What is true of the mosaic if the question leaves this slice and this result.
    ghost says: { Self → Mosaic → List Self.Element → Result Self.Answer Refusal → Type 0 };

    /// Asks the question, and fills the slice. After a refusal the slice may contain anything.
    fn ask<E: Engine>(
        &self,
        engine: &mut E,
        into: &mut [Self::Element],
    ) -> Result<Self::Answer, Refusal>
        ensures { Asked E.Engine engine.old engine.new (refused_first self.now (length into.old)) (count self.now) (refusal_of result) (λ m. says self.now m into.new result) };
}
