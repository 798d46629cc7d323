//! A law of audits, the contract of a function that does nothing.

ghost use Rattle.cj_audit.specs.Audits.{AuditsAreTexts};

/// The law that the lines of a backend are a text if names, values and counts are what their types allow.
#[tactic(auto, using(crate::proofs::AuditTexts::audits_are_texts))]
pub fn audits_are_texts()
    ensures { AuditsAreTexts }
{}
