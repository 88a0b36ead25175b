//! The variables of a container.
ghost use Rattle.std.specs.Prelude.{◌≡◌, ◌++◌, List, IfOk, OnOk, map, true, false};
ghost use Rattle.run_log.specs.Lines.{rows};
ghost use Rattle.dap_variables.specs.Children.{is_indexed};
ghost use Rattle.dap_lists.specs.Pages.{IsPage, excludes, page_of, rest_of};
ghost use Rattle.dap_variables.specs.Variables.{child_variable, variables_in};
ghost use Rattle.dap_lists.specs.Listed.{AreVariables, report_variable, report_variables, row_variable};
ghost use Rattle.dap_variables.specs.declared.variable.Variable.{Variable};

use crate::changes::{changes_at, row_variable, rows_of};
use crate::pages::{Page, Window, excludes, window_of};
use crate::reports::{report_variable, shown};
use dap_variables::{
    Child, Container, Variable, bytes_of, child_variable, count_of, is_indexed, named_children,
    numbered_children, plain_variable,
};
use explanations::Report;
use inverse_log::Walker;
use machine::{Setup, State};
use places::Items;
use run_log::Changed;
use std::alloc::{AllocError, Global};

// Adds a last variable, which says how many more there are, if there are some.
fn add_rest(alloc: Global, list: &mut Vec<Variable>, rest: usize) -> Result<(), AllocError>
    ensures { OnOk result (list.new.items ≡ list.old.items ++ rest_of rest) }
{
    if rest > 0 {
        let value = format!(in alloc; "{rest} more")?;
        let name = bytes_of(alloc, "..")?;
        list.push(plain_variable(name, Items::from_vec(value.into_bytes())))?;
    }
    Ok(())
}

fn variables_of_children(
    alloc: Global,
    setup: &Setup,
    state: &State,
    children: &[Child],
    rest: usize,
) -> Result<Items<Variable>, AllocError>
    ensures { IfOk result (λ vs. vs
        ≡ map (child_variable setup.now state.now) children.now ++ rest_of rest) }
{
    let mut list = Vec::new(alloc);
    for child in children {
        list.push(child_variable(alloc, setup, state, *child)?)?;
    }
    add_rest(alloc, &mut list, rest)?;
    Ok(Items::from_vec(list))
}

fn variables_of_rows(
    alloc: Global,
    setup: &Setup,
    rows: &[&[Changed]],
    rest: usize,
) -> Result<Items<Variable>, AllocError>
    ensures { IfOk result (λ vs. vs
        ≡ map (λ row. row_variable setup.now row.now) rows.now ++ rest_of rest) }
{
    let mut list = Vec::new(alloc);
    for row in rows {
        list.push(row_variable(alloc, setup, row)?)?;
    }
    add_rest(alloc, &mut list, rest)?;
    Ok(Items::from_vec(list))
}

fn variables_of_reports(
    alloc: Global,
    reports: &[&Report],
    rest: usize,
) -> Result<Items<Variable>, AllocError>
    ensures { IfOk result (λ vs. vs
        ≡ map (λ r. report_variable r.now) reports.now ++ rest_of rest) }
{
    let mut list = Vec::new(alloc);
    for report in reports {
        list.push(report_variable(alloc, report)?)?;
    }
    add_rest(alloc, &mut list, rest)?;
    Ok(Items::from_vec(list))
}

// Returns the variables on a page of a container whose children are numbered.
#[tactic(auto, unfolding(dap_variables::specs::Variables::variables_in, dap_variables::specs::Children::children))]
fn numbered_variables(
    alloc: Global,
    walker: &Walker,
    container: Container,
    page: Page,
) -> Result<Items<Variable>, AllocError>
    requires { is_indexed container ≡ true }
    ensures { IfOk result (λ vs. vs ≡ page_of page (variables_in walker.now container)) }
{
    let (setup, state) = (walker.setup(), walker.state());
    let count = count_of(setup, state, container);
    let Window { from, to, rest } = window_of(page, count as usize);
    let children = numbered_children(alloc, container, from as u32, to as u32)?;
    variables_of_children(alloc, setup, state, &children, rest)
}

// Returns the variables on a page of a container whose children have names.
#[tactic(auto, unfolding(dap_variables::specs::Variables::variables_in, dap_variables::specs::Children::children))]
fn named_variables(
    alloc: Global,
    walker: &Walker,
    container: Container,
    page: Page,
) -> Result<Items<Variable>, AllocError>
    requires { is_indexed container ≡ false }
    ensures { IfOk result (λ vs. vs ≡ page_of page (variables_in walker.now container)) }
{
    let (setup, state) = (walker.setup(), walker.state());
    let children = named_children(alloc, setup, state, container)?;
    let Window { from, to, rest } = window_of(page, children.len());
    variables_of_children(alloc, setup, state, &children[from..to], rest)
}

// Returns the variables on a page of a container other than changes and findings.
fn child_variables(
    alloc: Global,
    walker: &Walker,
    container: Container,
    page: Page,
) -> Result<Items<Variable>, AllocError>
    ensures { IfOk result (λ vs. vs ≡ page_of page (variables_in walker.now container)) }
{
    if is_indexed(container) {
        numbered_variables(alloc, walker, container, page)
    } else {
        named_variables(alloc, walker, container, page)
    }
}

// Returns the lines of changes on a page.
fn change_variables(
    alloc: Global,
    setup: &Setup,
    changes: &[Changed],
    page: Page,
) -> Result<Items<Variable>, AllocError>
    ensures { IfOk result (λ vs. vs
        ≡ page_of page (map (row_variable setup.now) (rows changes.now))) }
{
    let rows = rows_of(alloc, changes)?;
    let Window { from, to, rest } = window_of(page, rows.len());
    variables_of_rows(alloc, setup, &rows[from..to], rest)
}

// Returns the findings on a page.
fn finding_variables(
    alloc: Global,
    walker: &Walker,
    reports: &[Report],
    page: Page,
) -> Result<Items<Variable>, AllocError>
    ensures { IfOk result (λ vs. vs ≡ page_of page (report_variables walker.now reports.now)) }
{
    let list = shown(alloc, walker, reports)?;
    let Window { from, to, rest } = window_of(page, list.len());
    variables_of_reports(alloc, &list[from..to], rest)
}

// Returns the variables on a page of a container that the page's filter doesn't leave out.
fn page_variables(
    alloc: Global,
    walker: &Walker,
    reports: &[Report],
    container: Container,
    page: Page,
) -> Result<Items<Variable>, AllocError>
    ensures { IfOk result (λ vs. (all : List Variable)
        × AreVariables walker.now reports.now container all × (vs ≡ page_of page all)) }
{
    match container {
        Container::Changes => {
            let changes = changes_at(alloc, walker)?;
            change_variables(alloc, walker.setup(), &changes, page)
        }
        Container::Findings => finding_variables(alloc, walker, reports, page),
        container => child_variables(alloc, walker, container, page),
    }
}

/// Returns the variables of a container that are on a page, at the position of the walker.
/// `reports` are the findings of the run; only `Findings` needs them.
pub fn variables(
    alloc: Global,
    walker: &Walker,
    reports: &[Report],
    container: Container,
    page: Page,
) -> Result<Items<Variable>, AllocError>
    ensures { IfOk result (λ vs. IsPage (excludes page.filter container)
        (AreVariables walker.now reports.now container) page vs) }
{
    if excludes(page.filter, container) {
        return Ok(Items::new(alloc));
    }
    page_variables(alloc, walker, reports, container, page)
}
