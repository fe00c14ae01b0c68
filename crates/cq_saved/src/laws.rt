//! What holds of snapshots. The law is the contract of a function with an empty body.
ghost use Rattle.std.specs.Prelude.{List};
ghost use Rattle.cq_model.specs.States.{AreLawfulContents};
ghost use Rattle.cq_model.specs.declared.contents.CycleList.{CycleList};
ghost use Rattle.cq_model.specs.declared.history.Answer.TheVariants.{Lists};
ghost use Rattle.cq_model.specs.declared.history.Event.TheVariants.{Snapshot};
ghost use Rattle.cq_saved.specs.Saved.{HaveImages};
ghost use Rattle.cq_saved.specs.Snapshots.{contents_at_start};
ghost use Rattle.cq_shown.specs.Plans.{settings_in};
ghost use Rattle.cq_tail.specs.Tailers.{Answered, TailerFacts};
ghost use Rattle.cq_words.specs.Values.{QueueFacts};

/// The cycles of a snapshot have images, and a queue can be opened with them, with each name at 0 and the floor 0.
pub fn a_snapshot_can_be_opened()
    ensures images { (queue : QueueFacts) (old new : TailerFacts) (ls : List CycleList)
        → Answered queue old new Snapshot (Lists ls) old.cursor → HaveImages (settings_in queue.plan).layout ls }
    ensures lawful { (queue : QueueFacts) (old new : TailerFacts) (ls : List CycleList)
        → Answered queue old new Snapshot (Lists ls) old.cursor
        → AreLawfulContents (settings_in queue.plan) (contents_at_start (settings_in queue.plan) ls) }
{}
