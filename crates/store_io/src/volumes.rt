// The volume record for C hosts.
//
// The C interface has one function a record, and no records as arguments: each is written out, with a record's fields number by number.
ghost use Rattle.std.specs.Prelude.{◌≡◌};
ghost use Rattle.meta.specs.Base.{decode_base, encode_base};
ghost use Rattle.meta.specs.Block.{entries_per_page};
ghost use Rattle.meta.specs.Error.{number};
ghost use Rattle.meta.specs.Volume.{decode_volume, encode_volume, table_end, check_file_len};
ghost use Rattle.store_io.specs.Arguments.{base_of, volume_of, table_of};
ghost use Rattle.store_io.specs.Host.{answer, encoded, refusal};
ghost use Rattle.store_io.specs.Metadata.{base_values, volume_values};

use crate::answers::give;
use meta::meta::VolumeMeta;
use meta::meta2::{VolumeMeta2, entries_per_page};

// Decodes a record of 64 bytes.
#[unsafe(no_mangle)]
pub extern "C" fn sio_volume_decode(bytes: &[u8], found: &mut [u64; 11]) -> u32
    ensures { (result, found.new) ≡ answer number volume_values found.old (decode_volume bytes.now) }
{
    give(VolumeMeta2::decode(bytes).map(volume_values), found)
}

// Encodes a record of 64 bytes.
#[unsafe(no_mangle)]
pub extern "C" fn sio_volume_encode(
    bytes: &mut [u8],
    log2_block_size: u8,
    log2_table_slot_size: u8,
    device_index: u16,
    owner_generation: u64,
    table_offset: u64,
    created_unix_s: u64,
    features: u64,
    table_pages: u32,
    entries_per_page: u16,
    clean_close: u32,
    flags: u32,
    written: &mut usize,
) -> u32
    ensures { (result, written.new, bytes.new) ≡ encoded number written.old (encode_volume (volume_of (base_of log2_block_size log2_table_slot_size device_index owner_generation table_offset created_unix_s features) table_pages entries_per_page clean_close flags) bytes.old) }
{
    let record = VolumeMeta2 {
        base: VolumeMeta {
            log2_block_size,
            log2_table_slot_size,
            device_index,
            owner_generation,
            table_offset,
            created_unix_s,
            features,
        },
        table_pages,
        entries_per_page,
        clean_close: clean_close != 0,
        flags,
    };
    give(record.encode(bytes), written)
}

// Decodes the 48 bytes that both formats have.
#[unsafe(no_mangle)]
pub extern "C" fn sio_volume_base_decode(bytes: &[u8], found: &mut [u64; 7]) -> u32
    ensures { (result, found.new) ≡ answer number base_values found.old (decode_base bytes.now) }
{
    give(VolumeMeta::decode(bytes).map(base_values), found)
}

// Encodes the 48 bytes that both formats have.
#[unsafe(no_mangle)]
pub extern "C" fn sio_volume_base_encode(
    bytes: &mut [u8],
    log2_block_size: u8,
    log2_table_slot_size: u8,
    device_index: u16,
    owner_generation: u64,
    table_offset: u64,
    created_unix_s: u64,
    features: u64,
    written: &mut usize,
) -> u32
    ensures { (result, written.new, bytes.new) ≡ encoded number written.old (encode_base (base_of log2_block_size log2_table_slot_size device_index owner_generation table_offset created_unix_s features) bytes.old) }
{
    let record = VolumeMeta {
        log2_block_size,
        log2_table_slot_size,
        device_index,
        owner_generation,
        table_offset,
        created_unix_s,
        features,
    };
    give(record.encode(bytes), written)
}

// Entries of a page.
#[unsafe(no_mangle)]
pub extern "C" fn sio_entries_per_page(log2_table: u8) -> u16
    ensures { result ≡ entries_per_page log2_table }
{
    entries_per_page(log2_table)
}

// A record with a table's geometry, zeros elsewhere.
pub fn table_of(log2_block_size: u8, log2_table_slot_size: u8, table_pages: u32) -> VolumeMeta2
    ensures { result ≡ table_of log2_block_size log2_table_slot_size table_pages }
{
    VolumeMeta2 {
        base: VolumeMeta {
            log2_block_size,
            log2_table_slot_size,
            device_index: 0,
            owner_generation: 0,
            table_offset: 0,
            created_unix_s: 0,
            features: 0,
        },
        table_pages,
        entries_per_page: 0,
        clean_close: false,
        flags: 0,
    }
}

// Where the table ends.
#[unsafe(no_mangle)]
pub extern "C" fn sio_table_end(
    log2_block_size: u8,
    log2_table_slot_size: u8,
    table_pages: u32,
    end: &mut u64,
) -> u32
    ensures { (result, end.new) ≡ answer number (λ n. n) end.old (table_end (table_of log2_block_size log2_table_slot_size table_pages)) }
{
    give(
        table_of(log2_block_size, log2_table_slot_size, table_pages).table_end(),
        end,
    )
}

// Whether the table ends within a file.
#[unsafe(no_mangle)]
pub extern "C" fn sio_check_file_len(
    log2_block_size: u8,
    log2_table_slot_size: u8,
    table_pages: u32,
    file_len: u64,
) -> u32
    ensures { result ≡ refusal number (check_file_len (table_of log2_block_size log2_table_slot_size table_pages) file_len) }
{
    let record = table_of(log2_block_size, log2_table_slot_size, table_pages);
    match record.check_file_len(file_len) {
        Ok(()) => 0,
        Err(error) => u32::from(error.number()),
    }
}

// The numbers of a base, in the layout's order.
// The C interface has a row of numbers for a record, one for each layout.
pub fn base_values(v: VolumeMeta) -> [u64; 7]
    ensures { result ≡ base_values v }
{
    [
        u64::from(v.log2_block_size),
        u64::from(v.log2_table_slot_size),
        u64::from(v.device_index),
        v.owner_generation,
        v.table_offset,
        v.created_unix_s,
        v.features,
    ]
}

// The base's numbers, then pages, entries a page, clean mark and flags.
pub fn volume_values(v: VolumeMeta2) -> [u64; 11]
    ensures { result ≡ volume_values v }
{
    let b = base_values(v.base);
    [
        b[0],
        b[1],
        b[2],
        b[3],
        b[4],
        b[5],
        b[6],
        u64::from(v.table_pages),
        u64::from(v.entries_per_page),
        u64::from(v.clean_close),
        u64::from(v.flags),
    ]
}
