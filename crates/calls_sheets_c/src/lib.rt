// What a C program calls of the crate calls_sheets: each of its functions, with the same clauses.

#![tactic(auto)]

ghost use Rattle.std.specs.Prelude.{◌≡◌};
ghost use Rattle.hall.specs.Rooms.{told, written};
ghost use Rattle.sheet.specs.Answers.{sheet_of};
ghost use Rattle.sheetparts.specs.Parts.{codes_part, packet_fields, packet_at};
ghost use Rattle.calls_sheets.specs.Outcomes.{of_sheet, of_codes, of_fields, of_packet};

#[unsafe(no_mangle)]
pub extern "C" fn calls_sheet(sheet: &[u8], room: &mut [u32]) -> u32
    ensures number { result ≡ told (of_sheet (sheet_of sheet.now)) room.old }
    ensures room { room.new ≡ written (of_sheet (sheet_of sheet.now)) room.old }
{
    calls_sheets::calls_sheet(sheet, room)
}

#[unsafe(no_mangle)]
pub extern "C" fn calls_sheet_place(sheet: &[u8]) -> u32
    ensures { result ≡ (sheet_of sheet.now).place }
{
    calls_sheets::calls_sheet_place(sheet)
}

#[unsafe(no_mangle)]
pub extern "C" fn calls_sheet_codes(sheet: &[u8], room: &mut [u8]) -> u32
    ensures number { result ≡ told (of_codes sheet.now) room.old }
    ensures room { room.new ≡ written (of_codes sheet.now) room.old }
{
    calls_sheets::calls_sheet_codes(sheet, room)
}

#[unsafe(no_mangle)]
pub extern "C" fn calls_codes_part(sheet: &[u8], room: &mut [u8]) -> u32
    ensures number { result ≡ told (0, codes_part sheet.now) room.old }
    ensures room { room.new ≡ written (0, codes_part sheet.now) room.old }
{
    calls_sheets::calls_codes_part(sheet, room)
}

#[unsafe(no_mangle)]
pub extern "C" fn calls_sheet_packet(sheet: &[u8], i: u32, room: &mut [u32]) -> u32
    ensures number { result ≡ told (of_packet (packet_at sheet.now i)) room.old }
    ensures room { room.new ≡ written (of_packet (packet_at sheet.now i)) room.old }
{
    calls_sheets::calls_sheet_packet(sheet, i, room)
}

#[unsafe(no_mangle)]
pub extern "C" fn calls_sheet_packet_place(sheet: &[u8], i: u32) -> u32
    ensures { result ≡ (packet_at sheet.now i).place }
{
    calls_sheets::calls_sheet_packet_place(sheet, i)
}

#[unsafe(no_mangle)]
pub extern "C" fn calls_packet_fields(sheet: &[u8], i: u32, room: &mut [u32]) -> u32
    ensures number { result ≡ told (of_fields (packet_fields sheet.now i)) room.old }
    ensures room { room.new ≡ written (of_fields (packet_fields sheet.now i)) room.old }
{
    calls_sheets::calls_packet_fields(sheet, i, room)
}
