//! Tests of what end-to-end cases can't observe: the size of undo records, the step counts of jumps
//! and searches, and whole runs undone. Also devices that fail, sources, the texts of faults, live
//! runs, and their clients.
#![tactic(auto)]

#[cfg(test)]
mod tests;
