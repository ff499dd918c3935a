//! Which op stands at an address.

ghost use Rattle.std.specs.Prelude.{◌≡◌, ◌<◌, List, [], ◌∷◌, ◌++◌, All, OnOk, IfOk};
ghost use Rattle.std.specs.Option.{option_copied};
ghost use Rattle.board_plan.specs.declared.ops.Placed.{Placed};
ghost use Rattle.board_plan.specs.Ops.{op_at};
ghost use Rattle.board_ops.specs.Indexes.{Finds, Indexes, IsThere};

use board_plan::{Op, Placed};
use ras_io::NoMemory;
use std::alloc::{AllocError, Global};
use std::collections::BTreeMap;

/// How many hints there are.
const HINTS: usize = 4096;

/// An odd number that spreads addresses over the hints.
const SPREAD: u64 = 0x9e37_79b9_7f4a_7c15;

/// The ops of a plan in the order of their addresses.
#[derive(Drop)]
struct Tree {
    by_pc: BTreeMap<u64, Op>,
}

/// The ops of a plan by their addresses. Each address has a hint at the op that may stand there, so that most ops are
/// found at one look.
#[derive(Drop)]
pub struct OpIndex {
    tree: Tree,
    near: Vec<Placed>,
    hints: Vec<u16>,
}

impl Tree {
    /// The tree of these ops; of several at one address, the first counts. `NoMemory` comes where no room was found.
    fn new(alloc: Global, ops: &[Placed]) -> Result<Tree, NoMemory>
        ensures { IfOk result (λ tree. Finds ops.now tree) }
    {
        let mut tree = Tree::empty(alloc);
        for placed in ops {
            tree.add(placed)?;
        }
        Ok(tree)
    }

    /// No ops.
    fn empty(alloc: Global) -> Tree
        ensures { Finds [] result }
    {
        Tree {
            by_pc: BTreeMap::new(alloc),
        }
    }

    /// Adds an op behind the others.
    fn add(&mut self, placed: &Placed) -> Result<(), NoMemory>
        ensures { OnOk result ((ops : List Placed) → Finds ops self.old → Finds (ops ++ placed.now ∷ []) self.new) }
    {
        if self.by_pc.contains_key(&placed.pc) {
            return Ok(());
        }
        match self.by_pc.insert(placed.pc, placed.op) {
            Ok(_) => Ok(()),
            Err(_) => Err(NoMemory),
        }
    }

    /// The op at an address. None exactly where none stands there.
    fn get(&self, pc: u64) -> Option<&Op>
        ensures { (ops : List Placed) → Finds ops self.now → option_copied result ≡ op_at pc ops }
    {
        self.by_pc.get(&pc)
    }
}

/// Which hint is an address's.
fn hint_of(pc: u64) -> usize
    ensures { result < 4096 }
{
    (pc.wrapping_mul(SPREAD) / 0x10_0000_0000_0000 % 4096) as usize
}

/// The ops that are found at their addresses.
fn found(alloc: Global, tree: &Tree, ops: &[Placed]) -> Result<Vec<Placed>, AllocError>
    ensures { IfOk result (λ near. (all : List Placed) → Finds all tree.now → All (IsThere all) near.items) }
{
    let mut near = Vec::with_capacity(alloc, ops.len())?;
    for placed in ops {
        if let Some(op) = tree.get(placed.pc) {
            near.push(Placed {
                pc: placed.pc,
                op: *op,
            })?;
        }
    }
    Ok(near)
}

/// The hints at these ops.
fn hints(alloc: Global, near: &[Placed]) -> Result<Vec<u16>, AllocError> {
    let mut hints = Vec::new(alloc);
    hints.resize(HINTS, 0)?;
    for i in 0..near.len().min(HINTS) {
        if let Some(hint) = hints.get_mut(hint_of(near[i].pc)) {
            *hint = i as u16;
        }
    }
    Ok(hints)
}

impl OpIndex {
    /// The index of these ops; of several at one address, the first counts. `NoMemory` comes where no room was found.
    pub fn new(alloc: Global, ops: &[Placed]) -> Result<OpIndex, NoMemory>
        ensures { IfOk result (λ index. Indexes ops.now index) }
    {
        let tree = Tree::new(alloc, ops)?;
        let near = found(alloc, &tree, ops).map_err(|_| NoMemory)?;
        let hints = hints(alloc, &near).map_err(|_| NoMemory)?;
        Ok(OpIndex { tree, near, hints })
    }

    /// The op at an address. None exactly where none stands there.
    pub fn get(&self, pc: u64) -> Option<&Op>
        ensures { (ops : List Placed) → Indexes ops self.now → option_copied result ≡ op_at pc ops }
    {
        let hint = self.hints.get(hint_of(pc)).copied().unwrap_or(0);
        match self.near.get(usize::from(hint)) {
            Some(placed) if placed.pc == pc => Some(&placed.op),
            _ => self.tree.get(pc),
        }
    }
}
