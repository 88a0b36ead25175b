//! Pages of the children of a container.
ghost use Rattle.std.specs.Prelude.{◌≡◌, ◌≤◌, min};
ghost use Rattle.dap_lists.specs.Pages.{excludes, left_out, most_on};
ghost use Rattle.dap_lists.specs.Windows.{window};

use dap_messages::Filter;
use dap_variables::{Container, is_indexed};

/// How many children a page has if the request doesn't say how many.
const USUAL: u64 = 256;

/// The children of a container that are requested. A count of 0 is the first 256 from `start` on.
#[derive(Clone, Copy)]
pub struct Page {
    pub filter: Filter,
    pub start: u64,
    pub count: u64,
}

/// The children on a page, and how many are after them that the request also meant.
#[derive(Clone, Copy)]
pub(crate) struct Window {
    pub from: usize,
    pub to: usize,
    pub rest: usize,
}

/// Returns whether a filter leaves out the children of a container.
pub(crate) fn excludes(filter: Filter, container: Container) -> bool
    ensures { result ≡ excludes filter container }
{
    match filter {
        Filter::All => false,
        Filter::Named => is_indexed(container),
        Filter::Indexed => !is_indexed(container),
    }
}

// Returns a number, or the limit if it is greater.
fn at_most(number: u64, limit: usize) -> usize
    ensures value { result ≡ min number limit }
    ensures most { result ≤ limit }
{
    if number < limit as u64 {
        number as usize
    } else {
        limit
    }
}

fn most_on(page: Page) -> u64
    ensures { result ≡ most_on page }
{
    if page.count == 0 { USUAL } else { page.count }
}

fn left_out(page: Page, after: usize) -> usize
    ensures { result ≡ left_out page after }
{
    if page.count == 0 {
        after.saturating_sub(USUAL as usize)
    } else {
        0
    }
}

/// Returns which of `total` variables are on a page.
pub(crate) fn window_of(page: Page, total: usize) -> Window
    ensures value { result ≡ window page total }
    ensures order { result.from ≤ result.to }
    ensures within { result.to ≤ total }
{
    let from = at_most(page.start, total);
    let after = total - from;
    Window {
        from,
        to: from + at_most(most_on(page), after),
        rest: left_out(page, after),
    }
}
