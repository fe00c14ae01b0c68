//! The version of the library.
ghost use Rattle.std.specs.Prelude.{◌≡◌};

/// The version as a number: major * 1,000,000 + minor * 1,000 + patch. So a later version has a greater number.
const VERSION: u32 = 1_000;

/// Returns the version of the library. C compares it with `LINNETSHELF_VERSION`, the version of the header.
#[unsafe(no_mangle)]
pub extern "C" fn linnetshelf_version() -> u32
    ensures { result ≡ VERSION }
{
    VERSION
}
