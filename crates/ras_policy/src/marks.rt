//! What a published copy says of a page, and the numbers of a page.

ghost use Rattle.std.specs.Prelude.{◌≡◌, ◌<◌, ◌^◌, ◌+◌};
ghost use Rattle.ras_policy.specs.Retired.{is_listed};
ghost use Rattle.ras_policy.specs.Grouped.{with_mark, first_of};
ghost use Rattle.ras_policy.specs.Books.{mark_of, marks_corrected, marks_uncorrected};

use board_plan::Published;
use reri_fields::{Severity, Status};

/// How many bytes a page has.
const PAGE_BYTES: u64 = 4096;

/// A page of memory, and how many copies of error records were published of errors on it.
#[derive(Clone, Copy, Debug, PartialEq, Eq)]
pub struct Page {
    /// The number of the page: an address divided by 4,096.
    pub page: u64,
    /// Copies whose greatest severity is CE.
    pub corrected: u32,
    /// Copies whose greatest severity is UED or UEC.
    pub uncorrected: u32,
}

/// The page of one copy, and how bad its error was.
#[derive(Clone, Copy, Debug, PartialEq, Eq)]
pub(crate) struct Mark {
    pub(crate) page: u64,
    pub(crate) severity: Option<Severity>,
}

/// The mark of a copy.
pub(crate) fn mark_of(published: &Published) -> Mark
    ensures { result ≡ mark_of published.now }
{
    Mark {
        page: published.copy.address / PAGE_BYTES,
        severity: Status(published.copy.status).greatest(),
    }
}

/// Counts a mark to its page.
#[tactic(auto, unfolding(reri_fields::specs::Block::is_worst))]
pub(crate) fn with_mark(page: Page, mark: &Mark) -> Page
    requires corrected { page.corrected + 1 < 2 ^ 32 }
    requires uncorrected { page.uncorrected + 1 < 2 ^ 32 }
    ensures { result ≡ with_mark mark.now page }
{
    match mark.severity {
        Some(Severity::Ce) => Page {
            corrected: page.corrected + 1,
            ..page
        },
        Some(Severity::Ued | Severity::Uec) => Page {
            uncorrected: page.uncorrected + 1,
            ..page
        },
        None => page,
    }
}

/// A page that has this mark alone.
pub(crate) fn first_of(mark: &Mark) -> Page
    ensures { result ≡ first_of mark.now }
{
    let page = Page {
        page: mark.page,
        corrected: 0,
        uncorrected: 0,
    };
    with_mark(page, mark)
}

/// Whether a page is to be retired: it has at least so many corrected copies, or an uncorrected one.
pub(crate) fn is_listed(page: &Page, threshold: u16) -> bool
    ensures { result ≡ is_listed threshold page.now }
{
    page.corrected >= u32::from(threshold) || page.uncorrected > 0
}
