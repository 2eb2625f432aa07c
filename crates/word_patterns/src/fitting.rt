//! A law on the texts behind a key.

ghost use Rattle.std.specs.Prelude.{◌≡◌, ◌++◌, ◌∷◌, ℕ, Bool, true, List};
ghost use Rattle.word_patterns.specs.Fitting.{AreTextsOf, alone, are_apart, keyed_part};
ghost use Rattle.word_patterns.specs.Grammar.{Fits, Part};

/// The law that in words which fit a pattern, the texts behind the key of a part are as many as the part allows, and each is of its form,
/// where no word of another part begins with the key.
pub fn texts_fit()
    ensures { (before : List Part) (key : List ℕ) (is_text : List ℕ → Bool) (least most : ℕ) (after : List Part) (words : List (List ℕ)) →
        are_apart (alone key) before ≡ true → are_apart (alone key) after ≡ true → Fits (before ++ keyed_part key is_text least most ∷ after) words
        → AreTextsOf key is_text least most words }
{}
