// Parts that the words of several commands have.
use word_patterns::{Part, TextForm, WordForm};

pub(crate) const DOCUMENT: Part<'static> = Part {
    forms: &[WordForm::Keyed("doc=", TextForm::FileName)],
    least: 1,
    most: 1,
};

pub(crate) const POLICY: Part<'static> = Part {
    forms: &[WordForm::Keyed("policy=", TextForm::FileName)],
    least: 1,
    most: 1,
};

pub(crate) const MOMENT: Part<'static> = Part {
    forms: &[WordForm::Keyed("at=", TextForm::Time)],
    least: 1,
    most: 1,
};

pub(crate) const EXTERNALS: Part<'static> = Part {
    forms: &[WordForm::Keyed("ext=", TextForm::FileName)],
    least: 0,
    most: 16,
};
