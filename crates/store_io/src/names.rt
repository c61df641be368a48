// Region names for C hosts.
//
// The C interface has one function a type, and a name's length beside its bytes: each is written out.
ghost use Rattle.std.specs.Prelude.{◌≡◌};
ghost use Rattle.meta.specs.Error.{number};
ghost use Rattle.meta.specs.Name.{named, padded};
ghost use Rattle.store_io.specs.Host.{answer};
ghost use Rattle.store_io.specs.Metadata.{name_found};

use meta::meta::{MetaError, RegionName};

// Hands over a name that is one.
fn give(named: Result<RegionName, MetaError>, stored: &mut [u8; 24], stored_len: &mut u8) -> u32
    ensures { (result, (stored.new, stored_len.new)) ≡ answer number name_found (stored.old, stored_len.old) named }
{
    match named {
        Ok(name) => {
            stored.copy_from_slice(&name.bytes);
            *stored_len = name.len;
            0
        }
        Err(error) => u32::from(error.number()),
    }
}

// Stores a name.
#[unsafe(no_mangle)]
pub extern "C" fn sio_region_name(name: &[u8], stored: &mut [u8; 24], stored_len: &mut u8) -> u32
    ensures { (result, (stored.new, stored_len.new)) ≡ answer number name_found (stored.old, stored_len.old) (named name.now) }
{
    give(RegionName::new(name), stored, stored_len)
}

// The same from 24 stored bytes.
#[unsafe(no_mangle)]
pub extern "C" fn sio_region_name_padded(
    raw: &[u8; 24],
    stored: &mut [u8; 24],
    stored_len: &mut u8,
) -> u32
    ensures { (result, (stored.new, stored_len.new)) ≡ answer number name_found (stored.old, stored_len.old) (padded raw.now) }
{
    give(RegionName::from_padded(*raw), stored, stored_len)
}
