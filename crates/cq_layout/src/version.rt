//! The versions of a folder, which are those of the store records of its images (ours; Chronicle Queue has no rule for
//! them). How they differ is written in this crate alone: here, in `store_record`, and in `Layout` and `room`, which count
//! the cells of a store record. Other crates ask whether a version is the current one, and pass a version on.

ghost use Rattle.std.specs.Prelude.{◌≡◌, ◌↔◌, IfSome, IsTrue, Some};
ghost use Rattle.cq_layout.specs.Version.{IsOf, is_current, older_layouts, origin_in, store_in, version_of, version_word};
ghost use Rattle.cq_layout.specs.declared.version.FolderVersion.{FolderVersion};

use crate::{Layout, Origin, StoreVersion};
use std::fmt;

/// The version of a folder, which is that of the store records of its images.
#[derive(Clone, Copy, Debug, PartialEq, Eq)]
pub enum FolderVersion {
    /// The store records hold the cycle and its measures.
    First,
    /// They hold the epoch and the length of a cycle too.
    Second,
}

/// The version of new folders.
pub const CURRENT_VERSION: FolderVersion = FolderVersion::Second;

/// How many more cells a store record of the current version has than the shortest of an older one.
pub const MORE_CELLS: u32 = 3;

impl FolderVersion {
    /// Returns the version of a folder whose images have such a store record.
    pub fn of(store: StoreVersion) -> FolderVersion
        ensures { result ≡ version_of store }
    {
        match store {
            StoreVersion::First => FolderVersion::First,
            StoreVersion::Second(_) => FolderVersion::Second,
        }
    }

    /// Returns the version that a word names, `1` or `2`, and `None` for any other word.
    pub fn named(word: &[u8]) -> Option<FolderVersion>
        ensures found { IfSome result (λ version. word.now ≡ version_word version) }
        ensures only { (version : FolderVersion) → word.now ≡ version_word version → result ≡ Some version }
    {
        if b"1".as_slice() == word {
            return Some(FolderVersion::First);
        }
        if b"2".as_slice() == word {
            return Some(FolderVersion::Second);
        }
        None
    }

    /// Returns the store record of the images in a folder of this version, for a queue with this origin.
    pub fn store(self, origin: Origin) -> StoreVersion
        ensures { result ≡ store_in self origin }
    {
        match self {
            FolderVersion::First => StoreVersion::First,
            FolderVersion::Second => StoreVersion::Second(origin),
        }
    }
}

impl fmt::Display for FolderVersion {
    ghost use Rattle.std.specs.Prelude.{Some};
    ghost use Rattle.cq_layout.specs.Version.{version_word};

    ghost output = { λ version. Some (version_word version) };

    fn fmt<W: fmt::Write>(&self, f: &mut fmt::Formatter<W>) -> fmt::Result {
        f.write_str(match self {
            FolderVersion::First => "1",
            FolderVersion::Second => "2",
        })
    }
}

impl StoreVersion {
    /// Whether new folders have this version.
    pub fn is_current(self) -> bool
        ensures { result ≡ is_current self }
    {
        FolderVersion::of(self) == CURRENT_VERSION
    }

    /// Whether the store record is one of a queue with this origin. Where it does not say an origin, it may be.
    pub fn is_of(self, origin: Origin) -> bool
        ensures { IsTrue result ↔ IsOf origin self }
    {
        match self {
            StoreVersion::First => true,
            StoreVersion::Second(own) => own == origin,
        }
    }

    /// Returns the origin that the store record says, if it says one.
    pub fn origin(self) -> Option<Origin>
        ensures { result ≡ origin_in self }
    {
        match self {
            StoreVersion::First => None,
            StoreVersion::Second(origin) => Some(origin),
        }
    }
}

/// Returns the layouts of the same shape with the versions before the current one.
pub fn older_layouts(layout: Layout) -> [Layout; 1]
    ensures { result ≡ older_layouts layout }
{
    [Layout::new(layout.shape(), StoreVersion::First)]
}
