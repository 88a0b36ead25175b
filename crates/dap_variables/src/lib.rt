//! The variables of a moment: containers, the children of each, and how a child is shown.
#![tactic(auto)]

mod children;
mod container;
mod counts;
mod requests;
mod variable;

pub use children::{Child, FIRST_DESCRIPTOR, named_children, numbered_children};
pub use container::{Container, container_of, reference_of};
pub use counts::{count_of, is_indexed};
pub use requests::RequestField;
pub use variable::{Variable, bytes_of, child_variable, place_variable, plain_variable};
