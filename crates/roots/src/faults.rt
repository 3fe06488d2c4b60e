//! Disk faults as refusals.
ghost use Rattle.std.specs.Prelude.{◌≡◌, true, Ok, Err, MatchResult};
ghost use Rattle.lattice.specs.declared.refusal.Refusal.TheVariants.{Device};

use disk::Fault;
use lattice::Refusal;

// The disk's answer, with a fault as the refusal Device.
pub(crate) fn device<T>(answer: Result<T, Fault>) -> Result<T, Refusal>
    ensures { MatchResult answer (λ value. result ≡ Ok value) (λ _. result ≡ Err Device) }
{
    match answer {
        Ok(value) => Ok(value),
        Err(Fault) => Err(Refusal::Device),
    }
}

// The disk's answer, with a fault as the refusal Device, which is recorded in `failed`.
pub(crate) fn noted(failed: &mut bool, answer: Result<(), Fault>) -> Result<(), Refusal>
    ensures { MatchResult answer
        (λ _. (result ≡ Ok tt) × (failed.new ≡ failed.old))
        (λ _. (result ≡ Err Device) × (failed.new ≡ true)) }
{
    if answer.is_err() {
        *failed = true;
    }
    device(answer)
}
