// Traces a night sheet: the sheet on standard input, the text on standard output.

#![tactic(auto)]

use std::io;
use std::io::Read;

// One byte more than a sheet may have, so that a longer one is seen to be so.
const SHEET_ROOM: u64 = 65537;
// The room for a piece of the text.
const TEXT_ROOM: usize = 65536;

// Prints the trace of a sheet, one piece behind the other, until there is no more.
fn print_pieces(rt: &impl Print, sheet: &[u8], room: &mut [u8]) -> io::Result<()> {
    let mut from: u32 = 0;
    while let Ok(piece) = lines::trace_piece(room, sheet, from) {
        rt.write_all(&room[..piece.end])?;
        from = piece.next;
    }
    Ok(())
}

fn main(rt: HostRuntime) -> io::Result<()> {
    let mut sheet = Vec::new(rt.alloc());
    rt.reader().take(SHEET_ROOM).read_to_end(&mut sheet)?;
    let mut room = vec![in rt.alloc(); 0u8; TEXT_ROOM]?;
    print_pieces(&rt, &sheet, &mut room)
}
