//! The order of code points: Canonical XML 1.0, section 2.2, "Document Order".

ghost use Rattle.std.specs.Prelude.{◌≡◌};
ghost use Rattle.std.specs.Str.{chars};
ghost use Rattle.document_model.specs.Canonical.{is_before};
ghost use Rattle.xml_items.specs.Found.{value_in, IsValueText};

use xml_items::classes::first;
use xml_items::texts::same;
use xml_items::value_texts::first_of_value;

// Whether a text comes before another.
pub(crate) fn is_before(a: &str, b: &str) -> bool
    ensures { result ≡ is_before (chars a.now) (chars b.now) }
{
    let mut x = a;
    let mut y = b;
    'characters: loop {
        match first(y) {
            Some((d, further)) => match first(x) {
                Some((c, behind)) => {
                    if c != d {
                        return c < d;
                    }
                    x = behind;
                    y = further;
                }
                None => return true,
            },
            None => return false,
        }
    }
}

// Whether a value comes before another.
pub(crate) fn is_value_before(a: &str, b: &str) -> bool
    requires first { IsValueText a.now }
    requires second { IsValueText b.now }
    ensures { result ≡ is_before (value_in (chars a.now)) (value_in (chars b.now)) }
{
    if same(a, b) {
        return false;
    }
    let mut x = a;
    let mut y = b;
    'characters: loop {
        match first_of_value(y) {
            Some((d, further)) => match first_of_value(x) {
                Some((c, behind)) => {
                    if c != d {
                        return c < d;
                    }
                    x = behind;
                    y = further;
                }
                None => return true,
            },
            None => return false,
        }
    }
}
