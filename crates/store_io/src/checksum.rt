// CRC-32C for C hosts.
ghost use Rattle.std.specs.Prelude.{◌≡◌, ◌++◌, replicate};
ghost use Rattle.codec.specs.Crc32c.{crc32c, crc32c_append};

// The checksum of `bytes`.
#[unsafe(no_mangle)]
pub extern "C" fn sio_crc32c(bytes: &[u8]) -> u32
    ensures { result ≡ crc32c bytes.now }
{
    codec::crc32c::crc32c(bytes)
}

// The checksum `crc` carried on over `bytes`.
#[unsafe(no_mangle)]
pub extern "C" fn sio_crc32c_append(crc: u32, bytes: &[u8]) -> u32
    ensures { result ≡ crc32c_append crc bytes.now }
{
    codec::crc32c::crc32c_append(crc, bytes)
}

// The checksum of `head`, as many zeros as `zeros` says, and `tail`.
#[unsafe(no_mangle)]
pub extern "C" fn sio_crc32c_gap(head: &[u8], zeros: usize, tail: &[u8]) -> u32
    ensures { result ≡ crc32c (head.now ++ replicate zeros 0 ++ tail.now) }
{
    codec::crc32c::crc32c_gap(head, zeros, tail)
}
