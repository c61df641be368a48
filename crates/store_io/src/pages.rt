// Table pages for C hosts.
ghost use Rattle.std.specs.Prelude.{◌≡◌};
ghost use Rattle.meta.specs.Error.{number};
ghost use Rattle.meta.specs.Page.{decode_page, encode_entries};
ghost use Rattle.store_io.specs.Arguments.{page_of};
ghost use Rattle.store_io.specs.Host.{answer, encoded};
ghost use Rattle.store_io.specs.Metadata.{page_values};

use crate::answers::give;
use meta::meta2::{ENTRY2_LEN, PAGE_HEADER_LEN, PageHeader, decode_page, encode_entries};

// Decodes a page.
#[unsafe(no_mangle)]
pub extern "C" fn sio_decode_page(
    bytes: &[u8],
    page_index: u32,
    max_entries: u16,
    found: &mut [u64; 5],
) -> u32
    ensures { (result, found.new) ≡ answer number page_values found.old (decode_page bytes.now page_index max_entries) }
{
    match decode_page(bytes, page_index, max_entries) {
        Ok(page) => {
            *found = page_values(&page.header);
            0
        }
        Err(error) => u32::from(error.number()),
    }
}

// Index, next seq and count, then the start and the length of the entries.
// The C interface has a row of numbers for a record.
pub fn page_values(h: &PageHeader) -> [u64; 5]
    ensures { result ≡ page_values h.now }
{
    [
        u64::from(h.page_index),
        u64::from(h.next_seq),
        u64::from(h.count),
        PAGE_HEADER_LEN as u64,
        u64::from(h.count) * ENTRY2_LEN as u64,
    ]
}

// Encodes a page.
#[unsafe(no_mangle)]
pub extern "C" fn sio_encode_page(
    bytes: &mut [u8],
    page_index: u32,
    next_seq: u32,
    count: u16,
    entries: &[u8],
    written: &mut usize,
) -> u32
    ensures { (result, written.new, bytes.new) ≡ encoded number written.old (encode_entries (page_of page_index next_seq count) entries.now bytes.old) }
{
    let header = PageHeader {
        page_index,
        next_seq,
        count,
    };
    give(encode_entries(bytes, &header, entries), written)
}
