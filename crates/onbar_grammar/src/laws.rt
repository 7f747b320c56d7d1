//! Laws of the grammar, each on a function with no body.
ghost use Rattle.std.specs.Prelude.{◌≡◌, ◌↔◌, ◌<◌, ◌^◌, ℕ, List, Some};
ghost use Rattle.std.specs.Fmt.{decimal};
ghost use Rattle.onbar_grammar.specs.Numbers.{number};

/// A number has one spelling, the one that `{}` writes.
pub fn numbers_are_decimal()
    ensures { (word : List ℕ) (n : ℕ) → n < 2 ^ 64 → (number word ≡ Some n) ↔ (word ≡ decimal n) }
{}
