//! What is left of a queue whose names were changed. Each law is the contract of a function that does nothing.

ghost use Rattle.std.specs.Prelude.{◌≡◌, ℕ, List, Some, length};
ghost use Rattle.cq_folder.specs.Folder.{Files};
ghost use Rattle.cq_files.specs.Openable.{HoldOpenable};
ghost use Rattle.cq_files.specs.Queue.{CanBeOpened, contents_in};
ghost use Rattle.cq_files.specs.declared.opening.SavedQueue.{SavedQueue};
ghost use Rattle.cq_model.specs.Settings.{IsLawfulSettings, Settings};
ghost use Rattle.cq_model.specs.declared.contents.Contents.{Contents};
ghost use Rattle.cq_names.specs.Edits.{Edit, IsEdit, with_names, with_positions};
ghost use Rattle.cq_names.specs.Left.{IsLeftOf};
ghost use Rattle.cq_names.specs.Names.{IsChanged};
ghost use Rattle.cq_orders.specs.declared.settings.NameChange.{NameChange};

/// A queue can be opened with the names and positions that a change leaves.
pub fn what_is_left_is_lawful()
    ensures settings { (change : NameChange) (settings : Settings) (contents : Contents) (edit : Edit) → IsLawfulSettings settings
        → IsEdit change settings contents edit → IsLawfulSettings (with_names settings edit.names) }
    ensures contents { (change : NameChange) (settings : Settings) (contents : Contents) (edit : Edit) → CanBeOpened settings contents
        → length contents.positions ≡ length settings.names → IsEdit change settings contents edit
        → CanBeOpened (with_names settings edit.names) (with_positions contents edit.positions) }
{}

/// A folder in which names were changed holds the queue that is left: its files are those of a lawful queue, which can be
/// opened, with the same images and the same floor.
pub fn a_changed_folder_holds_what_is_left()
    ensures { (change : NameChange) (before after : Files) (text : List ℕ) (left : SavedQueue)
        → (done : IsChanged change (Some before) (Some after) text) → IsLeftOf done.queue done.edit left
        → HoldOpenable left after × (contents_in left ≡ with_positions (contents_in done.queue) done.edit.positions) }
{}
