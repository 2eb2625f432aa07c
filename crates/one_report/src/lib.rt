//! That the report on what is found of a signature is one, and so is its verdict.
//!
//! The definitions stand in `signature_evidence`. Each function here has an empty body, and its contract is a law.
#![tactic(auto)]

ghost use Rattle.one_report.specs.Laws.{AnswersAreOne, OneReportFits};

/// What is shown has one list of earliest times and one record of right answers, by a policy and at a moment.
pub fn answers_are_one()
    ensures { AnswersAreOne }
{}

/// At most one text is the report on what is found, by a policy and at a moment, and with one clock.
pub fn one_report_fits()
    ensures { OneReportFits }
{}
