//! Every run is safe.

ghost use Rattle.std.specs.Prelude.{ℕ, List};
ghost use Rattle.ras_device.specs.declared.act.Act.{Act};
ghost use Rattle.board_plan.specs.declared.notes.Step.{Step};
ghost use Rattle.board_plan.specs.declared.plan.Plan.{Plan};
ghost use Rattle.board_plan.specs.Plans.{IsPlan, AreReports};
ghost use Rattle.board_plan.specs.Laws.{EachRunIsSafe};
ghost use Rattle.board_laws.specs.Safe.{IsRunSafe};

/// For every plan that a board can be made of, whatever acts its reporters have: at each state of each run the nine
/// facts hold, what handlers interrupted is amended by their own notes alone and comes back as amended, published
/// blocks stand until they are acknowledged, and, where the acts are reports, a drain claims a record at most twelve
/// times before it publishes a copy.
pub fn each_run_is_safe()
    ensures { EachRunIsSafe }
{}

/// The same of one run, without further premises where the acts are reports, as those of every script and device are.
pub fn each_kept_run_is_safe()
    ensures { (plan : Plan) (acts : ℕ → List Act) (tries : List Step) → IsPlan plan → AreReports acts
        → IsRunSafe plan acts tries }
{}
