// The calls about a sheet for a caller outside of Rattle, on plain numbers and slices.

#![tactic(auto)]

ghost use Rattle.std.specs.Prelude.{◌≡◌};
ghost use Rattle.hall.specs.Rooms.{told, written};
ghost use Rattle.sheet.specs.Answers.{sheet_of};
ghost use Rattle.sheetparts.specs.Parts.{codes_part, packet_fields, packet_at};
ghost use Rattle.calls_sheets.specs.Outcomes.{of_sheet, of_codes, of_fields, of_packet};

use rooms::tell;

pub fn calls_sheet(sheet: &[u8], room: &mut [u32]) -> u32
    ensures number { result ≡ told (of_sheet (sheet_of sheet.now)) room.old }
    ensures room { room.new ≡ written (of_sheet (sheet_of sheet.now)) room.old }
{
    let read = sheet::read_sheet(sheet);
    if read.refusal != 0 {
        return read.refusal;
    }
    let h = read.hall;
    tell(0, &[h.n, h.k, h.b, h.count, read.packets], room)
}

pub fn calls_sheet_place(sheet: &[u8]) -> u32
    ensures { result ≡ (sheet_of sheet.now).place }
{
    sheet::read_sheet(sheet).place
}

pub fn calls_sheet_codes(sheet: &[u8], room: &mut [u8]) -> u32
    ensures number { result ≡ told (of_codes sheet.now) room.old }
    ensures room { room.new ≡ written (of_codes sheet.now) room.old }
{
    let number = sheet::read_sheet(sheet).refusal;
    if number != 0 {
        return number;
    }
    tell(0, sheetparts::codes_of(sheet), room)
}

pub fn calls_codes_part(sheet: &[u8], room: &mut [u8]) -> u32
    ensures number { result ≡ told (0, codes_part sheet.now) room.old }
    ensures room { room.new ≡ written (0, codes_part sheet.now) room.old }
{
    tell(0, sheetparts::codes_part(sheet), room)
}

pub fn calls_sheet_packet(sheet: &[u8], i: u32, room: &mut [u32]) -> u32
    ensures number { result ≡ told (of_packet (packet_at sheet.now i)) room.old }
    ensures room { room.new ≡ written (of_packet (packet_at sheet.now i)) room.old }
{
    let p = sheetparts::packet_at(sheet, i);
    if p.refusal != 0 {
        return p.refusal;
    }
    tell(
        0,
        &[p.source, p.dst, u32::from(p.retry), u32::from(p.ttl)],
        room,
    )
}

pub fn calls_sheet_packet_place(sheet: &[u8], i: u32) -> u32
    ensures { result ≡ (packet_at sheet.now i).place }
{
    sheetparts::packet_at(sheet, i).place
}

pub fn calls_packet_fields(sheet: &[u8], i: u32, room: &mut [u32]) -> u32
    ensures number { result ≡ told (of_fields (packet_fields sheet.now i)) room.old }
    ensures room { room.new ≡ written (of_fields (packet_fields sheet.now i)) room.old }
{
    let p = sheetparts::packet_fields(sheet, i);
    if p.refusal != 0 {
        return p.refusal;
    }
    tell(
        0,
        &[
            p.place,
            p.source,
            p.dst,
            u32::from(p.retry),
            u32::from(p.ttl),
        ],
        room,
    )
}
