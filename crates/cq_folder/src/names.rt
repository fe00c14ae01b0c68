ghost use Rattle.std.specs.Prelude.{◌≡◌};
ghost use Rattle.cq_folder.specs.Folder.{is_named};

/// The file that keeps a queue's settings and positions.
pub const CONFIG_FILE: &str = "queue.cqc";

/// The ending of the names of images.
pub const IMAGE_ENDING: &str = ".cqi";

/// The log of a live queue.
pub const LOG_FILE: &str = "queue.log";

/// The file that holds the renames of a save until they are done.
pub const RECORD_FILE: &str = "queue.save";

/// The ending of the names of parts. A part has the new bytes of a file until it replaces the file.
pub const PART_ENDING: &str = ".part";

/// Returns whether a file has this name.
pub fn has_name(names: &[String], name: &str) -> bool
    ensures { result ≡ is_named names.now name.now }
{
    names.iter().any(|listed| listed.as_str() == name)
}
