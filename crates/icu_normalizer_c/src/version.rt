//! The version of the library.
ghost use Rattle.std.specs.Prelude.{◌≡◌};

/// Returns the version of the library: the major number times 65536, the minor one times 256, and that of the patch.
#[unsafe(no_mangle)]
pub extern "C" fn icu_normalizer_version() -> u32
    ensures { result ≡ 0x010000 }
{
    0x010000
}
