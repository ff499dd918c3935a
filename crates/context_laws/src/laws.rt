//! The laws, for every plan that a board can be made of, whatever acts its reporters have and whatever is tried.

ghost use Rattle.std.specs.Prelude.{ℕ, List};
ghost use Rattle.ras_device.specs.declared.act.Act.{Act};
ghost use Rattle.board_plan.specs.declared.plan.Plan.{Plan};
ghost use Rattle.board_plan.specs.Plans.{IsPlan};
ghost use Rattle.board_plan.specs.Amend.{EachBaseIsAmended, EachCompletionRestores, EachFrameIsAmended, EachStackIsTold};

/// While a handler runs, the context that it interrupted is saved just as the hart's own notes since its delivery have
/// amended it: by writes to sepc, spp and spie, by `sret`, and by accepted writes of INTERRUPTED attributes (SBI 3.0,
/// "Supervisor Software Events", event attributes).
pub fn each_frame_is_amended()
    ensures saved { (plan : Plan) (acts : ℕ → List Act) → IsPlan plan → EachFrameIsAmended plan acts }
{}

/// Right after the completion of a handler the context that it interrupted is live, just as the hart's own notes since
/// its delivery have amended it (SBI 3.0, "Supervisor Software Events", event completion).
pub fn each_completion_restores()
    ensures live { (plan : Plan) (acts : ℕ → List Act) → IsPlan plan → EachCompletionRestores plan acts }
{}

/// What sepc, spp and spie are where no handler runs is 0, 0 and 0 as the hart's own notes have amended it, also while
/// handlers run above it.
pub fn each_base_is_amended()
    ensures base { (plan : Plan) (acts : ℕ → List Act) → IsPlan plan → EachBaseIsAmended plan acts }
{}

/// The handlers that run on a hart are those that its own notes tell: a delivery adds one, and a completion takes the
/// newest away.
pub fn each_stack_is_told()
    ensures handlers { (plan : Plan) (acts : ℕ → List Act) → IsPlan plan → EachStackIsTold plan acts }
{}
