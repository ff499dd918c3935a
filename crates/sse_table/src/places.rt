//! The instances of a board, and where each of them stands.

ghost use Rattle.std.specs.Prelude.{◌≡◌, ◌<◌, ◌≤◌, All, length, slice_get, slice_index_or, Some};
ghost use Rattle.sse_base.specs.Ids.{place, same_instance};
ghost use Rattle.sse_table.specs.Places.{StandsFirst};

use crate::instances::place;
use sse_base::{Instance, MAX_INSTANCES};
use std::marker::Model;

/// How many hints there are: some for each instance of a board, so that few instances share one.
const HINTS: usize = 1024;

/// A hint at no instance.
const NOWHERE: u16 = 0xffff;

/// An odd number that spreads the ids of events over the hints.
const SPREAD: u32 = 0x9e37_79b1;

/// An instance of a board, and its number.
#[derive(Clone, Copy, Debug, PartialEq, Eq)]
pub struct Place {
    pub at: Instance,
    pub index: u16,
}

/// The instances of a board, by their numbers. Each instance has a hint at where it may stand, so that most are
/// found at one look.
#[derive(Drop)]
pub(crate) struct Places {
    instances: Vec<Instance>,
    hints: [u16; HINTS],
}

impl Model for Places {
    ghost use Rattle.std.specs.Prelude.{◌≡◌, All, List, length};
    ghost use Rattle.sse_base.specs.declared.ids.Instance.{Instance};
    ghost use Rattle.sse_table.specs.Places.{StandsFirst};

    ghost Value = { List Instance };

    ghost view = { λ p. p.instances.items };

    ghost invariant = { λ p. (length p.hints ≡ 1024) × All (StandsFirst p.instances.items) p.hints };
}

/// Whether two instances are the same.
#[tactic(auto, unfolding(sse_base::specs::Ids::same_instance))]
fn same(one: Instance, at: Instance) -> bool
    ensures { result ≡ same_instance one at }
{
    one == at
}

/// Which hint is an instance's: those of one event on the harts of a board are neighbours.
fn hint_of(at: Instance) -> usize
    ensures { result < 1024 }
{
    let mixed = at.id().0.wrapping_mul(SPREAD) / 0x40_0000;
    let number = match at {
        Instance::Local { hart, .. } => mixed.wrapping_add(hart as u32),
        Instance::Global { .. } => mixed,
    };
    (number % 1024) as usize
}

/// The hints of all instances.
fn hints(instances: &[Instance]) -> [u16; HINTS]
    requires { length instances.now ≤ MAX_INSTANCES }
    ensures room { length result ≡ 1024 }
    ensures first { All (StandsFirst instances.now) result }
{
    let mut hints = [NOWHERE; HINTS];
    for i in 0..instances.len() {
        let at = instances[i];
        if place(instances, at) == i {
            hints[hint_of(at)] = i as u16;
        }
    }
    hints
}

impl Places {
    /// These instances.
    pub(crate) fn new(instances: Vec<Instance>) -> Places
        requires { length instances.items ≤ MAX_INSTANCES }
        ensures { result ≡ instances.items }
    {
        let hints = hints(&instances);
        Places { instances, hints }
    }

    /// How many there are.
    pub(crate) fn len(&self) -> usize
        ensures { result ≡ length self.now }
    {
        self.instances.len()
    }

    /// The instance with this number.
    pub(crate) fn at(&self, index: usize) -> Instance
        requires { index < length self.now }
        ensures there { slice_get self.now index ≡ Some result }
        ensures read { result ≡ slice_index_or self.now index result }
    {
        self.instances[index]
    }

    /// Where an instance stands, or how many there are where it doesn't.
    #[inline(always)]
    pub(crate) fn place(&self, at: Instance) -> usize
        ensures { result ≡ place at self.now }
    {
        let hint = self.hints[hint_of(at)] as usize;
        match self.instances.get(hint) {
            Some(found) if same(*found, at) => hint,
            _ => place(&self.instances, at),
        }
    }
}
