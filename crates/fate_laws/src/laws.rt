//! The laws, for every plan that a board can be made of, whatever acts its reporters have and whatever is tried.

ghost use Rattle.std.specs.Prelude.{ℕ, List};
ghost use Rattle.ras_device.specs.declared.act.Act.{Act};
ghost use Rattle.board_plan.specs.declared.notes.Step.{Step};
ghost use Rattle.board_plan.specs.declared.plan.Plan.{Plan};
ghost use Rattle.board_plan.specs.Plans.{IsPlan};
ghost use Rattle.board_plan.specs.Run.{ran};
ghost use Rattle.board_plan.specs.Fates.{fates_of, news};
ghost use Rattle.board_plan.specs.Sound.{EachHasOneFate};
ghost use Rattle.board_plan.specs.Blocks.{EachDrainedWasPublished};
ghost use Rattle.fate_laws.specs.Sums.{AddUp};

/// Each error that reporters made has exactly one of the seven fates, and at most one Check published it.
pub fn each_error_has_one_fate()
    ensures { (plan : Plan) (acts : ℕ → List Act) (tries : List Step) → IsPlan plan
        → EachHasOneFate plan (news (ran plan acts tries).notes) }
{}

/// The numbers of errors that have each fate add up to the number of errors that were made.
pub fn fates_add_up()
    ensures { (plan : Plan) (acts : ℕ → List Act) (tries : List Step) → IsPlan plan
        → AddUp (fates_of plan (ran plan acts tries).notes) }
{}

/// Each drained error was published by one Check and no second: it was the error that its record showed in that very
/// step, and the copy has the six values that the record's registers had then (RERI 1.0, `control_i` to `timestamp_i`).
pub fn each_drained_was_published()
    ensures { (plan : Plan) (acts : ℕ → List Act) → IsPlan plan → EachDrainedWasPublished plan acts }
{}
