//! The laws on the scripts of loads.

ghost use Rattle.std.specs.Prelude.{ℕ, ◌≤◌, IsOk, length};
ghost use Rattle.board_plan.specs.Script.{script};
ghost use Rattle.board_load.specs.Load.{load_text};

/// The text of each load is a script. The rules of both are this project's own.
#[tactic(auto, using(crate::proofs::Whole::load_accepted))]
pub fn each_load_is_a_script()
    ensures { (n : ℕ) → n ≤ 1000 → IsOk (script (load_text n)) }
{}

/// The text of each load is no longer than a script may be. The rules of both are this project's own.
#[tactic(auto, using(crate::proofs::Short::load_short))]
pub fn each_load_is_short()
    ensures { (n : ℕ) → length (load_text n) ≤ 1048576 }
{}
