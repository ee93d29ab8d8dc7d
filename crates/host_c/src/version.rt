// The library's version as one number.
ghost use Rattle.std.specs.Prelude.{◌≡◌};
ghost use Rattle.host.specs.Version.{version_number};

use host::version;

#[unsafe(no_mangle)]
pub extern "C" fn shaftglimmer_version() -> u32
    ensures { result ≡ version_number }
{
    version::shaftglimmer_version()
}
