//! Two devices that take turns.

ghost use Rattle.std.specs.Prelude.{◌≡◌};
ghost use Rattle.ras_pulse.specs.Lists.{in_turn};

use ras_device::{Act, ErrorDevice};

/// Two devices that take turns, the first of them first, until one has no more; then the other gives the rest. A device
/// that answered None is dropped then. This project's own.
#[derive(Drop)]
pub struct Alternate<A, B> {
    first: Option<A>,
    second: Option<B>,
    second_is_next: bool,
}

impl<A: ErrorDevice, B: ErrorDevice> Alternate<A, B> {
    /// The acts of both by turns: an act of the first, then one of the second, and so on. When either runs dry, what is left
    /// of the other follows.
    pub fn new(first: A, second: B) -> Alternate<A, B>
        ensures { (⟦<Alternate<A, B> as ErrorDevice>⟧.left result).acts
            ≡ in_turn (A.left first).acts (B.left second).acts }
    {
        Alternate {
            first: Some(first),
            second: Some(second),
            second_is_next: false,
        }
    }
}

impl<A: ErrorDevice, B: ErrorDevice> ErrorDevice for Alternate<A, B> {
    ghost use Rattle.ras_pulse.specs.Left.{alternating, left_or_nothing};

    ghost left = { λ d.
        alternating d.second_is_next (left_or_nothing A.left d.first) (left_or_nothing B.left d.second) };

    #[tactic(auto, using(crate::proofs::Turns::turn_after))]
    fn next(&mut self) -> Option<Act> {
        if !self.second_is_next {
            if let Some(first) = &mut self.first {
                let act = first.next();
                if act.is_some() {
                    self.second_is_next = true;
                    return act;
                }
                self.first = None;
            }
        }
        if let Some(second) = &mut self.second {
            let act = second.next();
            if act.is_some() {
                self.second_is_next = false;
                return act;
            }
            self.second = None;
        }
        if let Some(first) = &mut self.first {
            let act = first.next();
            if act.is_some() {
                return act;
            }
            self.first = None;
        }
        None
    }
}
