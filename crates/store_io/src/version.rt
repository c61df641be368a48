// The number of the C interface.
ghost use Rattle.std.specs.Prelude.{◌≡◌};
ghost use Rattle.store_io.specs.Version.{version};

// It rises by one whenever an argument or a lent array changes.
pub const VERSION: u32 = 3;

// What a host compares with the number in its header.
#[unsafe(no_mangle)]
pub extern "C" fn sio_version() -> u32
    ensures { result ≡ version }
{
    VERSION
}
