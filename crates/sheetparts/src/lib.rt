// The codes and the packets of a sheet, as parts of its bytes.

#![tactic(auto)]

ghost use Rattle.std.specs.Prelude.{◌≡◌};
ghost use Rattle.sheet.specs.Answers.{codes_place};
ghost use Rattle.sheetparts.specs.Parts.{codes_part, codes_of, packet_refused, packet_fields, packet_at};

use hall::refusals::BAD_RANGE;
use sheet::{FULL_SECTION, PART_SECTION, read_sheet};
use words::word_at;

// The bytes of a count.
const COUNT_BYTES: usize = 4;

// A packet of a sheet; or the refusal, and its place. The refusal is a number, as that of the sheet which it hands on.
#[derive(Clone, Copy)]
pub struct SheetPacket {
    pub refusal: u32,
    pub place: u32,
    pub source: u32,
    pub dst: u32,
    pub retry: u8,
    pub ttl: u8,
}

// A packet that there is not.
fn packet_refused(number: u32, place: u32) -> SheetPacket
    ensures { result ≡ packet_refused number place }
{
    SheetPacket {
        refusal: number,
        place,
        source: 0,
        dst: 0,
        retry: 0,
        ttl: 0,
    }
}

// The first byte of a sheet's hall table: behind the first section, which has the bytes that the first count says, and the second count.
fn codes_place(sheet: &[u8]) -> usize
    ensures { result ≡ codes_place sheet.now }
{
    if word_at(sheet, 0) == PART_SECTION {
        return COUNT_BYTES + PART_SECTION as usize + COUNT_BYTES;
    }
    COUNT_BYTES + FULL_SECTION as usize + COUNT_BYTES
}

// As many bytes as the second count says, behind it; none where they are not there.
#[tactic(auto, using(crate::proofs::Parts::count_read, crate::proofs::Parts::codes_short, sheet::proofs::Places::codes_behind))]
pub fn codes_part(sheet: &[u8]) -> &[u8]
    ensures { result.now ≡ codes_part sheet.now }
{
    let length = sheet.len();
    let place = codes_place(sheet);
    if length < place {
        return &sheet[0..0];
    }
    let count = word_at(sheet, place - COUNT_BYTES) as usize;
    if length - place < count {
        return &sheet[0..0];
    }
    let end = place + count;
    &sheet[place..end]
}

// The codes of a sheet, the hall table; none where the sheet is refused.
pub fn codes_of(sheet: &[u8]) -> &[u8]
    ensures { result.now ≡ codes_of sheet.now }
{
    let read = read_sheet(sheet);
    if read.refusal != 0 {
        return &sheet[0..0];
    }
    codes_part(sheet)
}

// The fields of packet i by their bytes, for whoever has read the sheet.
#[tactic(auto, using(crate::proofs::Parts::count_read, crate::proofs::Parts::packet_short, sheet::proofs::Places::codes_behind))]
pub fn packet_fields(sheet: &[u8], i: u32) -> SheetPacket
    ensures { result ≡ packet_fields sheet.now i }
{
    let length = sheet.len();
    let place = codes_place(sheet);
    if length < place {
        return packet_refused(BAD_RANGE, 0);
    }
    let count = word_at(sheet, place - COUNT_BYTES) as usize;
    let at = place + count + COUNT_BYTES + 10 * (i as usize);
    if length < at + 10 {
        return packet_refused(BAD_RANGE, 0);
    }
    SheetPacket {
        refusal: 0,
        place: 0,
        source: word_at(sheet, at),
        dst: word_at(sheet, at + 4),
        retry: sheet[at + 8],
        ttl: sheet[at + 9],
    }
}

// Packet i of a sheet; the sheet's refusal where it is refused.
pub fn packet_at(sheet: &[u8], i: u32) -> SheetPacket
    ensures { result ≡ packet_at sheet.now i }
{
    let whole = read_sheet(sheet);
    if whole.refusal != 0 {
        return packet_refused(whole.refusal, whole.place);
    }
    if whole.packets <= i {
        return packet_refused(BAD_RANGE, 0);
    }
    packet_fields(sheet, i)
}
