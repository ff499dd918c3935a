//! From the marks of copies to pages with their numbers.

ghost use Rattle.std.specs.Prelude.{◌≡◌, ◌<◌, ◌≤◌, ◌^◌, ◌+◌, ◌==◌, ◌&&◌, ◌++◌, ◌∷◌, List, IfOk, OnOk, length, count_by};
ghost use Rattle.std.specs.List.{filter, list_any};
ghost use Rattle.std.specs.List.Sorted.{IsPermutation, IsNonDecreasingBy};
ghost use Rattle.ras_policy.specs.declared.marks.Mark.{Mark};
ghost use Rattle.ras_policy.specs.Retired.{is_listed};
ghost use Rattle.ras_policy.specs.Grouped.{grouped, all_grouped};
ghost use Rattle.ras_policy.specs.Books.{marks_corrected, marks_uncorrected};

use crate::marks::{Mark, Page, first_of, is_listed, with_mark};
use ras_io::NoMemory;
use std::alloc::Global;

/// The same marks by rising page.
pub(crate) fn by_page(alloc: Global, marks: &[Mark]) -> Result<Vec<Mark>, NoMemory>
    ensures same { IfOk result (λ v. IsPermutation marks.now v.items) }
    ensures as_many { IfOk result (λ v. length v.items ≡ length marks.now) }
    ensures rises { IfOk result (λ v. IsNonDecreasingBy (λ (m : Mark). m.page) v.items) }
{
    let mut sorted = Vec::from_slice(alloc, marks).map_err(|_| NoMemory)?;
    sorted.sort_unstable_by_key(|mark| mark.page);
    Ok(sorted)
}

/// Counts a mark to the page that is being counted, or puts that page down and begins the mark's own.
#[tactic(auto, using(crate::proofs::Stepping::same_page, crate::proofs::Stepping::next_page))]
fn take_mark(pages: &mut Vec<Page>, current: &mut Page, mark: &Mark) -> Result<(), NoMemory>
    requires corrected { current.old.corrected + 1 < 2 ^ 32 }
    requires uncorrected { current.old.uncorrected + 1 < 2 ^ 32 }
    ensures grouped { OnOk result ((ms : List Mark)
        → pages.new.items ++ grouped current.new ms ≡ pages.old.items ++ grouped current.old (mark.now ∷ ms)) }
    ensures corrected { OnOk result (current.new.corrected ≤ current.old.corrected + 1) }
    ensures uncorrected { OnOk result (current.new.uncorrected ≤ current.old.uncorrected + 1) }
{
    if mark.page == current.page {
        *current = with_mark(*current, mark);
    } else {
        pages.push(*current).map_err(|_| NoMemory)?;
        *current = first_of(mark);
    }
    Ok(())
}

/// The pages of marks that rise, after those of a page which is still being counted.
#[tactic(auto, using(crate::proofs::Stepping::ended))]
fn grouped(alloc: Global, first: Page, marks: &[Mark]) -> Result<Vec<Page>, NoMemory>
    requires few { length marks.now + 1 < 2 ^ 32 }
    requires corrected { first.corrected ≤ 1 }
    requires uncorrected { first.uncorrected ≤ 1 }
    ensures { IfOk result (λ v. v.items ≡ grouped first marks.now) }
{
    let mut pages = Vec::new(alloc);
    let mut current = first;
    for mark in marks {
        take_mark(&mut pages, &mut current, mark)?;
    }
    pages.push(current).map_err(|_| NoMemory)?;
    Ok(pages)
}

/// The pages of marks that rise.
pub(crate) fn all_grouped(alloc: Global, marks: &[Mark]) -> Result<Vec<Page>, NoMemory>
    requires { length marks.now < 2 ^ 32 }
    ensures { IfOk result (λ v. v.items ≡ all_grouped marks.now) }
{
    match marks.split_first() {
        None => Ok(Vec::new(alloc)),
        Some((first, rest)) => grouped(alloc, first_of(first), rest),
    }
}

/// Leaves the pages that are to be retired.
pub(crate) fn keep_listed(pages: &mut Vec<Page>, threshold: u16)
    ensures { pages.new.items ≡ filter (is_listed threshold) pages.old.items }
{
    pages.retain(|page| is_listed(page, threshold));
}

/// Whether a mark is of this page.
pub(crate) fn any_on(marks: &[Mark], page: u64) -> bool
    ensures { result ≡ list_any (λ (m : Mark). m.page == page) marks.now }
{
    marks.iter().any(|mark| mark.page == page)
}

/// The numbers of this page.
pub(crate) fn count_on(marks: &[Mark], page: u64) -> Page
    requires { length marks.now < 2 ^ 32 }
    ensures page { result.page ≡ page }
    ensures corrected { result.corrected ≡ count_by (λ m. (m.page == page) && marks_corrected m) marks.now }
    ensures uncorrected { result.uncorrected ≡ count_by (λ m. (m.page == page) && marks_uncorrected m) marks.now }
{
    let mut numbers = Page {
        page,
        corrected: 0,
        uncorrected: 0,
    };
    for mark in marks {
        if mark.page == page {
            numbers = with_mark(numbers, mark);
        }
    }
    numbers
}
