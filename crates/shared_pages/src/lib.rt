//! Lists whose copies share what neither has written since.
#![tactic(auto)]

pub mod list;
pub mod page;
mod pieces;
pub mod shared;

pub use list::PagedList;
pub use page::Page;
pub use shared::SharedList;
