//! Lists that grow.
ghost use Rattle.std.specs.Prelude.{◌≡◌, ◌++◌, [], ◌∷◌, IfErr, OnOk, OnErr};
ghost use Rattle.lattice.specs.declared.refusal.Refusal.TheVariants.{NoMemory};

use crate::Refusal;

/// Appends an item. The only refusal is NoMemory, which leaves the list unchanged.
pub fn push<T: Drop>(items: &mut Vec<T>, item: T) -> Result<(), Refusal>
    ensures pushed { OnOk result (items.new.items ≡ items.old.items ++ item ∷ []) }
    ensures refusal { IfErr result (λ r. r ≡ NoMemory) }
    ensures unchanged { OnErr result (items.new.items ≡ items.old.items) }
{
    match items.push(item) {
        Ok(()) => Ok(()),
        Err(_) => Err(Refusal::NoMemory),
    }
}
