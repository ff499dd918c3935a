//! The laws, for every plan whose banks gather as its version has it, whatever acts its reporters have and whatever is
//! tried.

ghost use Rattle.board_plan.specs.declared.plan.Plan.{Plan};
ghost use Rattle.move_laws.specs.Moves.{
  GathersByVersion,
  AreRunsKept,
  AreTracesKept,
  AreTriesKept,
  AreActsKept,
  AreReportsKept,
};

/// The same tries lead to the same states, notes and published copies, and to the same trace, whether the plan is moved
/// or not. The rule is this project's own.
pub fn move_keeps_runs()
    ensures runs { (plan : Plan) → GathersByVersion plan → AreRunsKept plan }
    ensures traces { (plan : Plan) → GathersByVersion plan → AreTracesKept plan }
{}

/// A moved plan makes the same tries as the plan before it, and its reporters have the same acts. The rule is this
/// project's own.
pub fn move_keeps_tries()
    ensures tries { (plan : Plan) → GathersByVersion plan → AreTriesKept plan }
    ensures acts { (plan : Plan) → GathersByVersion plan → AreActsKept plan }
{}

/// The full report of a moved plan is that of the plan before it, but for the version behind its first word; so is the
/// short one. The rule is this project's own.
pub fn move_changes_only_the_version()
    ensures { (plan : Plan) → GathersByVersion plan → AreReportsKept plan }
{}
