//! The steps that were made, and the copies that were published.

ghost use Rattle.std.specs.Prelude.{◌≡◌, ◌<◌, ◌++◌, [], ◌∷◌, IfOk, length};
ghost use Rattle.board_plan.specs.Run.{with_copy};
ghost use Rattle.board_core.specs.Rooms.{HasRoom, HasSameRoom};

use crate::kept::Kept;
use board_plan::{Published, Step};
use ras_io::NoMemory;
use std::alloc::Global;

/// The steps that were made, and the copies that were published, the oldest first.
#[derive(Drop)]
pub(crate) struct Log {
    pub(crate) steps: Kept<Step>,
    pub(crate) published: Kept<Published>,
}

impl Log {
    /// No steps, with room for so many. `NoMemory` comes where that room wasn't found.
    pub(crate) fn new(alloc: Global, room: usize) -> Result<Log, NoMemory>
        ensures steps { IfOk result (λ log. log.steps.items.items ≡ []) }
        ensures published { IfOk result (λ log. log.published.items.items ≡ []) }
        ensures room { IfOk result (λ log. HasRoom room log) }
    {
        Ok(Log {
            steps: Kept::new(alloc, room)?,
            published: Kept::new(alloc, room)?,
        })
    }

    /// Keeps the copy that a step published, if any.
    fn publish(published: &mut Kept<Published>, copy: &Option<Published>)
        requires { length published.old.items.items < published.old.room }
        ensures items { published.new.items.items ≡ published.old.items.items ++ with_copy copy.now [] }
        ensures room { published.new.room ≡ published.old.room }
    {
        if let Some(copy) = copy {
            published.push(*copy);
        }
    }

    /// Keeps a step with the copy that it published, if any.
    pub(crate) fn keep(&mut self, by: Step, copy: &Option<Published>)
        requires steps { length self.old.steps.items.items < self.old.steps.room }
        requires published { length self.old.published.items.items < self.old.published.room }
        ensures steps { self.new.steps.items.items ≡ self.old.steps.items.items ++ by ∷ [] }
        ensures published { self.new.published.items.items
            ≡ self.old.published.items.items ++ with_copy copy.now [] }
        ensures room { HasSameRoom self.old self.new }
    {
        self.steps.push(by);
        Log::publish(&mut self.published, copy);
    }
}
