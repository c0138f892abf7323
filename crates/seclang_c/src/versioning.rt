// The version of the library.
ghost use Rattle.std.specs.Prelude.{◌≡◌};
ghost use Rattle.seclang.specs.Codes.{version};

#[unsafe(no_mangle)]
pub extern "C" fn seclang_version() -> u64
    ensures { result ≡ version }
{
    seclang::seclang_version()
}
