//! The ops of a script, and at which addresses they stand.

ghost use Rattle.std.specs.Prelude.{◌≡◌, [], ◌∷◌, ◌++◌, length, OnOk, OnErr};
ghost use Rattle.board_plan.specs.Script.{has_op};

use board_plan::{List, Placed};
use ras_io::NoMemory;
use std::alloc::Global;
use std::collections::BTreeSet;
use std::marker::Model;

/// Placed ops in order, with the set of their addresses. Contracts see the list of the ops.
#[derive(Drop)]
pub(crate) struct OpTable {
    placed: Vec<Placed>,
    addresses: BTreeSet<u64>,
}

impl Model for OpTable {
    ghost use Rattle.std.specs.Prelude.{◌≡◌, ℕ, List};
    ghost use Rattle.std.specs.Ordering.{nat_cmp};
    ghost use Rattle.std.specs.BTreeSet.{contains};
    ghost use Rattle.board_plan.specs.declared.ops.Placed.{Placed};
    ghost use Rattle.board_plan.specs.Script.{has_op};

    ghost Value = { List Placed };

    ghost view = { λ t. t.placed.items };

    ghost invariant = { λ t. (pc : ℕ) → contains nat_cmp t.addresses pc ≡ has_op pc t.placed.items };
}

impl OpTable {
    /// No ops.
    #[tactic(auto, unfolding(board_plan::specs::Script::has_op))]
    pub(crate) fn new(alloc: Global) -> OpTable
        ensures { result ≡ [] }
    {
        OpTable {
            placed: Vec::new(alloc),
            addresses: BTreeSet::new(alloc),
        }
    }

    /// Whether an op stands at the address.
    pub(crate) fn has(&self, pc: u64) -> bool
        ensures { result ≡ has_op pc self.now }
    {
        self.addresses.contains(&pc)
    }

    /// How many ops there are.
    pub(crate) fn len(&self) -> usize
        ensures { result ≡ length self.now }
    {
        self.placed.len()
    }

    /// Adds an op. Where no memory is found nothing changes.
    pub(crate) fn add(&mut self, placed: Placed) -> Result<(), NoMemory>
        ensures ok { OnOk result (self.new ≡ self.old ++ placed ∷ []) }
        ensures err { OnErr result (self.new ≡ self.old) }
    {
        if self.placed.reserve(1).is_err() {
            return Err(NoMemory);
        }
        match self.addresses.insert(placed.pc) {
            Ok(_) => {
                self.placed.push_reserved(placed);
                Ok(())
            }
            Err(_) => Err(NoMemory),
        }
    }

    /// The ops, in order.
    pub(crate) fn into_list(self) -> List<Placed>
        ensures { result ≡ self }
    {
        let OpTable {
            placed,
            addresses: _,
        } = self;
        List::from_vec(placed)
    }
}
