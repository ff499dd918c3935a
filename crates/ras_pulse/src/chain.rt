//! Two devices, one behind the other.

ghost use Rattle.std.specs.Prelude.{◌≡◌, ◌++◌};

use ras_device::{Act, ErrorDevice};

/// Two devices, one behind the other. The second is asked only after the first answered None. A device that answered
/// None is dropped then. This project's own.
#[derive(Drop)]
pub struct Chain<A, B> {
    first: Option<A>,
    second: Option<B>,
}

impl<A: ErrorDevice, B: ErrorDevice> Chain<A, B> {
    /// The acts of the first, and then those of the second.
    pub fn new(first: A, second: B) -> Chain<A, B>
        ensures { (⟦<Chain<A, B> as ErrorDevice>⟧.left result).acts ≡ (A.left first).acts ++ (B.left second).acts }
    {
        Chain {
            first: Some(first),
            second: Some(second),
        }
    }
}

impl<A: ErrorDevice, B: ErrorDevice> ErrorDevice for Chain<A, B> {
    ghost use Rattle.ras_pulse.specs.Left.{chained, left_or_nothing};

    ghost left = { λ d. chained (left_or_nothing A.left d.first) (left_or_nothing B.left d.second) };

    fn next(&mut self) -> Option<Act> {
        if let Some(first) = &mut self.first {
            let act = first.next();
            if act.is_some() {
                return act;
            }
            self.first = None;
        }
        if let Some(second) = &mut self.second {
            let act = second.next();
            if act.is_some() {
                return act;
            }
            self.second = None;
        }
        None
    }
}
