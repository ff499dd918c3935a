//! How the acts of a device are handed to a board.

ghost use Rattle.std.specs.Prelude.{◌≡◌, IfOk};
ghost use Rattle.board_plan.specs.Step.{reporter_step};
ghost use Rattle.board_core.specs.Played.{IsReport, after_reporter, note_if, note_of, state_of};
ghost use Rattle.board_lock.specs.Hand.{act_at_hand, fresh_hand, given, handed_act, moved, reporter_hand_after, rewound};
ghost use Rattle.board_lock.specs.Trying.{is_step};
ghost use Rattle.board_lock.specs.Views.{hand_in_hands, left_or_none};

use crate::hands::Hands;
use crate::lent::Lent;
use board_parts::Outcome;
use ras_device::{Act, ErrorDevice};
use ras_io::NoMemory;
use std::alloc::Global;

impl<D: ErrorDevice> Hands<D> {
    /// No acts, with room for so many. `NoMemory` comes where that room wasn't found.
    pub(crate) fn new(
        alloc: Global,
        reporter: u8,
        device: Option<D>,
        limit: u16,
    ) -> Result<Hands<D>, NoMemory>
        ensures { IfOk result (λ h. hand_in_hands D.left h ≡ fresh_hand reporter (left_or_none D.left device) limit) }
    {
        let given = Vec::with_capacity(alloc, usize::from(limit)).map_err(|_| NoMemory)?;
        Ok(Hands {
            reporter,
            device,
            given,
            handed: 0,
            limit,
        })
    }

    /// The acts that the device gave, in their order.
    pub(crate) fn given(&self) -> &[Act]
        ensures { result.now ≡ given (hand_in_hands D.left self.now) }
    {
        self.given.as_slice()
    }

    /// No act counts as handed on any more.
    pub(crate) fn rewind(&mut self)
        ensures { hand_in_hands D.left self.new ≡ rewound (hand_in_hands D.left self.old) }
    {
        self.handed = 0;
    }

    /// The act that comes next, which is then handed on: the first given one that wasn't, else the device's next. None
    /// where there is none; then nothing changes.
    fn next_act(&mut self) -> Option<Act>
        ensures act { result ≡ act_at_hand (hand_in_hands D.left self.old) }
        ensures hand { hand_in_hands D.left self.new ≡ moved (hand_in_hands D.left self.old) }
        ensures report { IsReport result }
    {
        if self.handed < self.given.len() {
            let act = self.given[self.handed];
            self.handed += 1;
            return Some(act);
        }
        if self.given.len() >= usize::from(self.limit) {
            return None;
        }
        let Some(device) = &mut self.device else {
            return None;
        };
        let act = device.next()?;
        self.given.push_reserved(act);
        self.handed += 1;
        Some(act)
    }

    /// One try of the reporter on a board: it says whether that made a step, and then the outcome has its note.
    pub(crate) fn turn<B: Lent>(&mut self, board: &mut B, outcome: &mut Outcome) -> bool
        ensures board { B.played board.new ≡ after_reporter self.old.reporter
            (handed_act (hand_in_hands D.left self.old) (B.played board.old) self.old.reporter) (B.played board.old) }
        ensures hand { hand_in_hands D.left self.new
            ≡ reporter_hand_after (hand_in_hands D.left self.old) (B.played board.old) self.old.reporter }
        ensures note { note_if result outcome.new.note ≡ note_of (reporter_step self.old.reporter
            (B.played board.old).plan
            (handed_act (hand_in_hands D.left self.old) (B.played board.old) self.old.reporter)
            (state_of (B.played board.old))) }
        ensures made { result ≡ is_step (note_if result outcome.new.note) }
    {
        let reporter = self.reporter;
        let brief = board.brief();
        if !brief.wants(reporter) {
            return false;
        }
        if brief.is_list(reporter) {
            let act = brief.listed(reporter);
            return board.step_reporter(reporter, act, outcome);
        }
        let act = self.next_act();
        board.step_reporter(reporter, act, outcome)
    }
}
