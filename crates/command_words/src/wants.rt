// The files that words name.
ghost use Rattle.std.specs.Prelude.{◌≡◌, ◌++◌, ◌∷◌, [], map, OnOk};
ghost use Rattle.whole_files.specs.Wants.{want_of};
ghost use Rattle.word_patterns.specs.Grammar.{text_now};
ghost use Rattle.command_words.specs.Wanting.{external_want};

use whole_files::{Role, Wanted};
use xa_io::OutOfMemory;

// One more file that is wanted.
pub(crate) fn want<'a>(
    wanted: &mut Vec<Wanted<'a>>,
    role: Role,
    name: &'a str,
) -> Result<(), OutOfMemory>
    ensures { OnOk result (map want_of wanted.new.items ≡ map want_of wanted.old.items ++ record { role = role; name = name.now } ∷ []) }
{
    match wanted.push(Wanted { role, name }) {
        Ok(()) => Ok(()),
        Err(_) => Err(OutOfMemory),
    }
}

// The files that are handed in for References.
pub(crate) fn want_externals<'a>(
    wanted: &mut Vec<Wanted<'a>>,
    names: &[&'a str],
) -> Result<(), OutOfMemory>
    ensures { OnOk result (map want_of wanted.new.items ≡ map want_of wanted.old.items ++ map external_want (map text_now names.now)) }
{
    for name in names {
        want(wanted, Role::External, *name)?;
    }
    Ok(())
}
