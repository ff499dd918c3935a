//! The laws, for every plan that a board can be made of, whatever acts its reporters have and whatever is tried.

ghost use Rattle.std.specs.Prelude.{ℕ, List};
ghost use Rattle.ras_device.specs.declared.act.Act.{Act};
ghost use Rattle.board_plan.specs.declared.notes.Step.{Step};
ghost use Rattle.board_plan.specs.declared.plan.Plan.{Plan};
ghost use Rattle.board_plan.specs.Plans.{IsPlan};
ghost use Rattle.board_plan.specs.Run.{ran};
ghost use Rattle.board_plan.specs.Sound.{EachChangeIsAnArrow, EachNestRises, EachRunsInItsFrame, EachStepIsPrompt};
ghost use Rattle.event_laws.specs.Depth.{EachNestIsFew, EachStepLeavesOthers};
ghost use Rattle.event_laws.specs.Pending.{EachMarkIsTold};

/// In a step an event keeps its state or follows an arrow of the diagram of states, by the move that the step's note
/// tells of (SBI 3.0, "Supervisor Software Events", event states).
pub fn each_change_is_an_arrow()
    ensures { (plan : Plan) (acts : ℕ → List Act) (tries : List Step) → IsPlan plan
        → EachChangeIsAnArrow plan acts (ran plan acts tries).state }
{}

/// An event runs exactly where it has a handler's frame, it never has two, and a local event's is on its own hart.
pub fn each_runs_in_its_frame()
    ensures { (plan : Plan) (acts : ℕ → List Act) (tries : List Step) → IsPlan plan
        → EachRunsInItsFrame (ran plan acts tries).state.machine }
{}

/// On each hart every handler is strictly more urgent than the one that it interrupted (SBI 3.0, "Supervisor Software
/// Events", event priority).
pub fn each_nest_rises()
    ensures { (plan : Plan) (acts : ℕ → List Act) (tries : List Step) → IsPlan plan
        → EachNestRises (ran plan acts tries).state.machine }
{}

/// A hart delivers what is chosen for it and nothing else, and it makes an op only where nothing is chosen.
pub fn each_step_is_prompt()
    ensures { (plan : Plan) (acts : ℕ → List Act) (tries : List Step) → IsPlan plan
        → EachStepIsPrompt plan acts (ran plan acts tries).state }
{}

/// A hart never runs more handlers than its plan has events.
pub fn each_nest_is_few()
    ensures { (plan : Plan) (acts : ℕ → List Act) (tries : List Step) → IsPlan plan
        → EachNestIsFew plan (ran plan acts tries).state }
{}

/// What a hart runs is changed by its own steps alone: those of other harts and of reporters leave it.
pub fn each_step_leaves_others()
    ensures { (plan : Plan) (acts : ℕ → List Act) (tries : List Step) → IsPlan plan
        → EachStepLeavesOthers plan acts (ran plan acts tries).state }
{}

/// An event of the board is pending exactly where a step since its last delivery signalled it: a drain's signal, an
/// accepted inject or a raise (SBI 3.0, "Supervisor Software Events").
pub fn each_mark_is_told()
    ensures { (plan : Plan) (acts : ℕ → List Act) (tries : List Step) → IsPlan plan
        → EachMarkIsTold plan (ran plan acts tries) }
{}
