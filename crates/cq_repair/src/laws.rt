//! What is so of the new image, and of the queue that is left. Each law is the contract of a function that does nothing.

ghost use Rattle.std.specs.Prelude.{◌≡◌, ◌<◌, ◌^◌, ℕ, All, Bool, List, Ok, Some, false};
ghost use Rattle.cq_files.specs.Openable.{HoldOpenable};
ghost use Rattle.cq_files.specs.declared.opening.SavedQueue.{SavedQueue};
ghost use Rattle.cq_folder.specs.Folder.{Files};
ghost use Rattle.cq_image.specs.Image.{image_of};
ghost use Rattle.cq_image.specs.Reading.{image_read, read_of};
ghost use Rattle.cq_image.specs.Salvage.{salvage_of};
ghost use Rattle.cq_layout.specs.Layout.{CycleLayout, IsLawfulLayout};
ghost use Rattle.cq_repair.specs.Opens.{HoldOpenableBut, IsLeftOf};
ghost use Rattle.cq_repair.specs.Repairs.{IsRepaired};

use cq_cycle::laws::names_and_cycles_are_paired;

/// The new image has no fault: it is read as the messages that `salvage` finds in the old one.
pub fn a_new_image_has_no_fault()
    ensures { (layout : CycleLayout) (cycle : ℕ) (bytes : List ℕ) (ended : Bool) → IsLawfulLayout layout → cycle < 2 ^ 32
        → All (λ byte. byte < 2 ^ 8) bytes
        → let kept = (salvage_of layout cycle bytes).messages in
        read_of layout cycle (image_of layout cycle kept ended) ≡ Ok (image_read kept ended) }
{}

/// A folder in which an image was repaired can be opened, if it could be but for the fault of that image: if its other files are those
/// of a queue that can be opened with some messages in that image.
pub fn a_repaired_folder_can_be_opened()
    ensures { (file text : List ℕ) (before after : Files) (queue left : SavedQueue)
        → (done : IsRepaired false file (Some before) (Some after) text) → HoldOpenableBut file queue before
        → IsLeftOf file done.ended done.found queue left → HoldOpenable left after }
{
    names_and_cycles_are_paired();
}
