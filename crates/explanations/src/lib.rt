//! Reports the findings of a run with their sentences: as text, JSON, a SARIF log, or a list.
#![tactic(auto)]

mod explaining;
mod json;
mod locating;
mod naming;
mod reporting;
mod sarif;
mod subjects;

pub use explaining::{Explanation, Form, Request, explain_run};
pub use naming::{named_fault, named_report};
pub use reporting::{Report, reports_of};
pub use subjects::Subject;
