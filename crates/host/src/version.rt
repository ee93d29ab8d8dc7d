// The library's version as one number.
ghost use Rattle.std.specs.Prelude.{◌≡◌};
ghost use Rattle.host.specs.Version.{version_number};

pub fn shaftglimmer_version() -> u32
    ensures { result ≡ version_number }
{
    100
}
