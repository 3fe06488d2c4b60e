//! The law that a spelling has one value.
ghost use Rattle.std.specs.Prelude.{◌≡◌, ℕ, List, length};
ghost use Rattle.page_codec.specs.Entries.{EntryValue, IsEntry, entry_bytes};
ghost use Rattle.page_codec.specs.Records.{IsRecord, record_bytes};
ghost use Rattle.page_codec.specs.Roots.{RootValue, IsRoot, root_bytes};

/// Bytes spell at most one root, one entry and one record of a given length. The function does nothing: its contract is
/// the law.
pub fn one_value_a_spelling()
    ensures entries { (a b : EntryValue) → IsEntry a → IsEntry b → entry_bytes a ≡ entry_bytes b
        → a ≡ b }
    ensures records { (count : ℕ) (a b : List ℕ) → IsRecord count a → IsRecord count b
        → record_bytes a ≡ record_bytes b → a ≡ b }
    ensures roots { (a b : RootValue) → IsRoot a → IsRoot b → root_bytes a ≡ root_bytes b → a ≡ b }
    ensures whole { (a : RootValue) → IsRoot a → length (root_bytes a) ≡ 4096 }
{}
