// Which header goes with this library.
ghost use Rattle.std.specs.Prelude.{◌≡◌};
ghost use Rattle.seclang.specs.Codes.{version};

pub fn seclang_version() -> u64
    ensures { result ≡ version }
{
    5
}
