//! Laws of the bytes that spell a head. The call does nothing: its contract is the law.

ghost use Rattle.std.specs.Prelude.{◌≡◌, ◌++◌, ℕ, List, []};
ghost use Rattle.exr_header.specs.Head.{Head};
ghost use Rattle.exr_header.specs.Spells.{Spells};

/// No bytes that spell a head are a proper prefix of bytes that spell one, and no bytes spell two heads (own).
pub fn spellings_are_prefix_free()
    // Nothing follows the first in the second.
    ensures prefix { (front : List ℕ) → (rest : List ℕ) → (g : Head) → (h : Head)
        → Spells front g → Spells (front ++ rest) h → rest ≡ [] }
    // Equal bytes spell equal heads.
    ensures same { (bytes : List ℕ) → (g : Head) → (h : Head) → Spells bytes g → Spells bytes h → g ≡ h }
{}
