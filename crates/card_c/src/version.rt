//! The version of the header of this library.
ghost use Rattle.std.specs.Prelude.{◌≡◌};
ghost use Rattle.card_c.specs.Version.{version_number};

/// The header's numbers.
const MAJOR: u32 = 0;

const MINOR: u32 = 3;

const PATCH: u32 = 0;

/// Returns the version of the header that this library was built for, as one number.
#[unsafe(no_mangle)]
pub extern "C" fn galliumtoad_version() -> u32
    ensures { result ≡ version_number 0 3 0 }
{
    MAJOR * 65_536 + MINOR * 256 + PATCH
}
