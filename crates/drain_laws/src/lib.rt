//! What holds of the banks of every board in every run: of their records, their drains, their slots and their claims.
//! There is no code here, only laws of the board book, each as the contract of a function that does nothing.
#![tactic(auto)]

ghost use Rattle.std.specs.Prelude.{ℕ, List};
ghost use Rattle.ras_device.specs.declared.act.Act.{Act};
ghost use Rattle.board_plan.specs.declared.plan.Plan.{Plan};
ghost use Rattle.board_plan.specs.Plans.{AreReports, IsPlan};
ghost use Rattle.board_plan.specs.Sound.{EachCopyIsOfItsRecord, EachDrainIsSound, EachShownPublishedIsUnderInvalidate, EachSignalledAsks};
ghost use Rattle.board_plan.specs.Blocks.{AreAtMostTwelveClaims, EachCopyStands, EachSignalledBlockRests, EachSlotIsOfItsNotes, EachTornCheckRises};
ghost use Rattle.drain_laws.specs.States.{AtEachState};

/// A bank with a signalled record asks for a drain, whatever came in between.
pub fn each_signalled_asks()
    ensures { AtEachState (λ plan acts s. EachSignalledAsks plan s) }
{}

/// Each drain is sound. Its record stays valid from the Scan that finds it up to its invalidation; its slot holds the
/// newest of its own copies; it gathers no more than its bank may; its level is the greatest of theirs. Only the bank's
/// home makes its steps, and has no other drain under way. The slot was free when it began.
pub fn each_drain_is_sound()
    ensures { AtEachState EachDrainIsSound }
{}

/// Each copy that a step publishes is of a claimed record's six registers as they are then.
pub fn each_copy_is_of_its_record()
    ensures { AtEachState EachCopyIsOfItsRecord }
{}

/// A record that shows an error of which a copy was published is about to be invalidated: the copy is its bank's
/// newest, no error has written the record since, and the drain's next phase is the invalidation.
pub fn each_shown_published_is_under_invalidate()
    ensures { AtEachState (λ plan acts s. EachShownPublishedIsUnderInvalidate plan s) }
{}

/// A slot holds the copies that were published since the last acknowledgement that found it full (GHESv2's
/// acknowledgement of an error status block, ACPI 6.5, 18.3.2.8).
pub fn each_slot_is_of_its_notes()
    ensures { (plan : Plan) (acts : ℕ → List Act) → IsPlan plan → EachSlotIsOfItsNotes plan acts }
{}

/// A copy stays at its place in the slot until that acknowledgement.
pub fn each_copy_stands()
    ensures { (plan : Plan) (acts : ℕ → List Act) → IsPlan plan → EachCopyStands plan acts }
{}

/// A block that was signalled stays as it is until that acknowledgement.
pub fn each_signalled_block_rests()
    ensures { (plan : Plan) (acts : ℕ → List Act) → IsPlan plan → EachSignalledBlockRests plan acts }
{}

/// From the Scan that finds a record to the Check that publishes it, a drain makes at most twelve claims, where no
/// report has a priority above 3.
pub fn at_most_twelve_claims()
    ensures { (plan : Plan) (acts : ℕ → List Act) → IsPlan plan → AreReports acts → AreAtMostTwelveClaims plan acts }
{}

/// Between a claim and the torn Check of that try the record came to hold an error of strictly greater rank.
pub fn each_torn_check_rises()
    ensures { (plan : Plan) (acts : ℕ → List Act) → IsPlan plan → EachTornCheckRises plan acts }
{}
