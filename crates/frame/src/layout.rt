// The layout in numbers, and words read off bytes, big-endian.
ghost use Rattle.std.specs.Prelude.{◌≡◌, ◌+◌, ◌*◌, ◌≤◌, length};
ghost use Rattle.frame.specs.Layout.{word_at};

// The version that there is.
pub const VERSION: u32 = 1;
// The header's words without a proxy.
pub const WORDS: usize = 5;
// The header's words with a proxy.
pub const WORDS_WITH_PROXY: usize = 6;

// Where version stands in the first word: what its value is multiplied by there.
pub const VERSION_AT: u32 = 268435456;
// Where DHL stands in the first word.
pub const DHL_AT: u32 = 16777216;
// Where protocol stands in the first word; payload length is behind it.
pub const PROTOCOL_AT: u32 = 65536;
// Where retry stands in the third word.
pub const RETRY_AT: u32 = 268435456;
// Where the flags stand in the third word.
pub const FLAGS_AT: u32 = 16777216;
// The flag that says that there is a proxy.
pub const PF: u32 = 1;
// Where TTL stands in the third word; the checksum is behind it.
pub const TTL_AT: u32 = 65536;

// The byte in which version begins.
pub const VERSION_BYTE: u32 = 0;
// The byte in which DHL begins.
pub const DHL_BYTE: u32 = 0;
// The byte in which the flags begin.
pub const FLAGS_BYTE: u32 = 8;

// The values of a field of 4 bits.
pub const BITS_4: u32 = 16;
// The values of a field of 8 bits.
pub const BITS_8: u32 = 256;
// The values of a field of 16 bits.
pub const BITS_16: u32 = 65536;

// Word i of a frame that has it.
pub(crate) fn word_at(frame: &[u8], i: usize) -> u32
    requires { 4 * i + 4 ≤ length frame.now }
    ensures { result ≡ word_at frame.now i }
{
    let at = 4 * i;
    u32::from_be_bytes([frame[at], frame[at + 1], frame[at + 2], frame[at + 3]])
}
