//! A ledger of the pages on which errors were published.

ghost use Rattle.std.specs.Prelude.{◌≡◌, ℕ, ◌<◌, ◌≤◌, ◌^◌, ◌+◌, ◌++◌, [], ◌∷◌, List, length, IfOk, IfSome, is_some};
ghost use Rattle.std.specs.List.{list_any};
ghost use Rattle.board_plan.specs.declared.notes.Published.{Published};
ghost use Rattle.ras_policy.specs.Retired.{is_on, numbers_of, pages_of};
ghost use Rattle.ras_policy.specs.Books.{mark_of, StandsFor};

use crate::grouping::{all_grouped, any_on, by_page, count_on, keep_listed};
use crate::marks::{Mark, Page, mark_of};
use board_plan::Published;
use ras_io::NoMemory;
use std::alloc::Global;
use std::marker::Model;

/// How often each page was struck, kept up to date copy by copy. It has a mark for each copy that was added, and sorts
/// them only when its list is asked for.
#[derive(Drop)]
pub struct Ledger {
    room: usize,
    marks: Vec<Mark>,
}

impl Model for Ledger {
    ghost use Rattle.std.specs.Prelude.{◌≤◌, ◌<◌, ◌^◌, length, vec_capacity};
    ghost use Rattle.ras_policy.specs.Books.{Books};

    ghost Value = { Books };

    ghost view = { λ l. record { room = l.room; marks = l.marks.items } };

    ghost invariant = { λ l. (l.room ≤ vec_capacity l.marks) × (length l.marks.items ≤ l.room) × (l.room < 2 ^ 32) };
}

impl Ledger {
    /// An empty ledger with room for so many copies, and so for as many pages. `NoMemory` comes where no room was
    /// found.
    pub fn new(alloc: Global, room: usize) -> Result<Ledger, NoMemory>
        requires { room ≤ 80000 }
        ensures empty { IfOk result (λ l. StandsFor [] l) }
        ensures room { IfOk result (λ l. l.room ≡ room) }
        ensures added { IfOk result (λ l. length l.marks ≡ 0) }
    {
        Ledger::with_room(alloc, room)
    }

    /// The same for more room.
    pub(crate) fn with_room(alloc: Global, room: usize) -> Result<Ledger, NoMemory>
        requires { room < 2 ^ 32 }
        ensures empty { IfOk result (λ l. StandsFor [] l) }
        ensures room { IfOk result (λ l. l.room ≡ room) }
        ensures added { IfOk result (λ l. length l.marks ≡ 0) }
    {
        let marks = Vec::with_capacity(alloc, room).map_err(|_| NoMemory)?;
        Ok(Ledger { room, marks })
    }

    /// Counts a published copy to its page. It takes no memory.
    pub fn add(&mut self, published: &Published)
        requires { length self.old.marks < self.old.room }
        ensures copies { (copies : List Published) → StandsFor copies self.old
            → StandsFor (copies ++ published.now ∷ []) self.new }
        ensures room { self.new.room ≡ self.old.room }
        ensures added { length self.new.marks ≡ length self.old.marks + 1 }
    {
        match self.marks.push(mark_of(published)) {
            Ok(()) => {}
            Err(_) => unreachable!(),
        }
    }

    /// The numbers of a page. None where no copy of that page was added.
    #[tactic(auto, using(crate::proofs::Standing::numbers_are))]
    pub fn page(&self, page: u64) -> Option<Page>
        ensures none { (copies : List Published) → StandsFor copies self.now
            → is_some result ≡ list_any (is_on page) copies }
        ensures numbers { (copies : List Published) → StandsFor copies self.now
            → IfSome result (λ p. p ≡ numbers_of copies page) }
    {
        let marks = self.marks.as_slice();
        if any_on(marks, page) {
            Some(count_on(marks, page))
        } else {
            None
        }
    }

    /// The pages to retire, by rising page: those with at least `threshold` copies whose greatest severity is CE, or
    /// at least one whose greatest is UED or UEC. `NoMemory` comes where no room for the list was found.
    #[tactic(auto, using(crate::proofs::Standing::list_is))]
    pub fn list(&self, alloc: Global, threshold: u16) -> Result<Vec<Page>, NoMemory>
        ensures { (copies : List Published) → StandsFor copies self.now
            → IfOk result (λ v. v.items ≡ pages_of threshold copies) }
    {
        let sorted = by_page(alloc, self.marks.as_slice())?;
        let mut pages = all_grouped(alloc, sorted.as_slice())?;
        keep_listed(&mut pages, threshold);
        Ok(pages)
    }
}
