//! What stands behind a key.

ghost use Rattle.std.specs.Prelude.{◌≡◌, MatchOption, drop, length, nat_eq, true, false};
ghost use Rattle.std.specs.List.{starts_with};

// What stands behind the key, where the word begins with it.
pub(crate) fn behind_key<'a>(word: &'a str, key: &str) -> Option<&'a str>
    ensures { MatchOption result (starts_with nat_eq word.now key.now ≡ false) (λ text. (starts_with nat_eq word.now key.now ≡ true) × (text.now ≡ drop (length key.now) word.now)) }
{
    word.strip_prefix(key)
}
