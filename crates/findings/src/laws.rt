//! Theorems about the rules of findings.

pub use finding_rules::laws::stuck_steps_are_refused;
