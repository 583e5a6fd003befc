// Big-endian words, and bytes at a place of lent room.

#![tactic(auto)]

ghost use Rattle.std.specs.Prelude.{◌≡◌, ◌+◌, ◌≤◌, length};
ghost use Rattle.words.specs.Words.{big_endian, words_bytes, word_at};
ghost use Rattle.words.specs.Rooms.{put, room_of};

// The big-endian number in four bytes, from the place of the first; 0 where they are not there.
#[tactic(auto, using(crate::proofs::Words::word_cut))]
pub fn word_at(bytes: &[u8], at: usize) -> u32
    ensures { result ≡ word_at bytes.now at }
{
    let length = bytes.len();
    if length < at {
        return 0;
    }
    if length - at < 4 {
        return 0;
    }
    u32::from_be_bytes([bytes[at], bytes[at + 1], bytes[at + 2], bytes[at + 3]])
}

// The four bytes of a word, at a place of a room that has it.
fn put_word(room: &mut [u8], at: usize, word: u32)
    requires { at + 4 ≤ length room.old }
    ensures { room.new ≡ put room.old at (big_endian word) }
{
    room[at..at + 4].copy_from_slice(&word.to_be_bytes());
}

// Words one behind the other, from a place of the room on; where they do not all fit, the room stays as it is.
#[tactic(auto, using(crate::proofs::Rooms::room_short, crate::proofs::Words::words_length))]
pub fn put_words(room: &mut [u8], at: usize, words: &[u32])
    ensures { room.new ≡ room_of room.old at (words_bytes words.now) }
{
    let length = room.len();
    if length < at {
        return;
    }
    if (length - at) / 4 < words.len() {
        return;
    }
    for (i, word) in words.iter().enumerate() {
        put_word(room, at + i * 4, *word);
    }
}

// Bytes from a place of the room on; where they do not all fit, the room stays as it is.
#[tactic(auto, using(crate::proofs::Rooms::room_short))]
pub fn put_bytes(room: &mut [u8], at: usize, bytes: &[u8])
    ensures { room.new ≡ room_of room.old at bytes.now }
{
    let length = room.len();
    if length < at {
        return;
    }
    if length - at < bytes.len() {
        return;
    }
    // One byte after the other: a copy by the library may call memmove, and the driver's library needs no symbol of another.
    for (i, byte) in bytes.iter().enumerate() {
        room[at + i] = *byte;
    }
}
