//! What is left of a queue that was trimmed. Each law is the contract of a function that does nothing.

ghost use Rattle.std.specs.Prelude.{◌≡◌, ◌≤◌, ◌+◌, ◌-◌, ℕ, List, Some, false, length};
ghost use Rattle.std.specs.List.{AllByRecursion};
ghost use Rattle.cq_cycle.specs.Index.{index_of};
ghost use Rattle.cq_folder.specs.Folder.{Files};
ghost use Rattle.cq_files.specs.Openable.{HoldOpenable};
ghost use Rattle.cq_files.specs.Queue.{contents_in};
ghost use Rattle.cq_files.specs.declared.opening.SavedQueue.{SavedQueue};
ghost use Rattle.cq_layout.specs.Layout.{IsLawfulLayout};
ghost use Rattle.cq_model.specs.Finds.{first_in};
ghost use Rattle.cq_model.specs.Settings.{Settings};
ghost use Rattle.cq_model.specs.States.{AreLawfulContents, IsHeld, last_cycle};
ghost use Rattle.cq_model.specs.declared.contents.Contents.{Contents};
ghost use Rattle.cq_orders.specs.declared.settings.TrimSettings.{TrimSettings};
ghost use Rattle.cq_stat.specs.Facts.{left_from, with_floor};
ghost use Rattle.cq_model.specs.Readable.{readable};
ghost use Rattle.cq_trim.specs.Trimmed.{IsLeftOf, removed_lists, trimmed};
ghost use Rattle.cq_trim.specs.Trims.{IsTrimmed};

/// A queue can be opened with what is left.
pub fn what_is_left_is_lawful()
    ensures { (settings : Settings) (contents : Contents) (floor : ℕ) → AreLawfulContents settings contents
        → floor ≤ last_cycle contents.lists → AreLawfulContents settings (trimmed contents floor) }
{}

/// A folder that was trimmed holds the queue that is left: its files are those of a lawful queue, which can be opened.
pub fn a_trimmed_folder_holds_what_is_left()
    ensures { (settings : TrimSettings) (before after : Files) (text : List ℕ) (left : SavedQueue)
        → (done : IsTrimmed settings (Some before) (Some after) text) → settings.dry_run ≡ false
        → IsLeftOf done.queue done.floor left
        → HoldOpenable left after × (contents_in left ≡ trimmed (contents_in done.queue) done.floor) }
{}

/// Reads and takes find what they find if only the floor rose: the same messages are read, as many are left for a name, and
/// the first one at or after a place is the same.
pub fn removed_cycles_are_not_missed()
    ensures readable { (settings : Settings) (contents : Contents) (floor : ℕ) → IsLawfulLayout settings.layout
        → AllByRecursion (IsHeld settings) contents.lists → readable (trimmed contents floor) ≡ readable (with_floor contents floor) }
    ensures left { (settings : Settings) (contents : Contents) (floor position : ℕ) → IsLawfulLayout settings.layout
        → AllByRecursion (IsHeld settings) contents.lists → left_from (trimmed contents floor) position ≡ left_from (with_floor contents floor) position }
    ensures first { (settings : Settings) (contents : Contents) (floor place : ℕ) → IsLawfulLayout settings.layout
        → AllByRecursion (IsHeld settings) contents.lists → index_of floor 0 ≤ place → first_in (trimmed contents floor).lists place ≡ first_in contents.lists place }
{}

/// As many cycles more may begin as were removed.
pub fn removed_cycles_make_place()
    ensures { (contents : Contents) (floor cycles : ℕ) → length contents.lists ≤ cycles
        → cycles - length (trimmed contents floor).lists
        ≡ (cycles - length contents.lists) + length (removed_lists floor contents.lists) }
{}
