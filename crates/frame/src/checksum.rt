// The checksum of RFC 791, from the plain sum of a header's words.
ghost use Rattle.std.specs.Prelude.{◌≡◌, ◌-◌, ◌*◌, ◌≤◌, length};
ghost use Rattle.frame.specs.Layout.{word_at};
ghost use Rattle.frame.specs.Checksum.{total, folded, header_checksum};

use crate::layout::{BITS_16, word_at};

// The plain sum of a frame's first count words, which it has.
pub(crate) fn sum_words(frame: &[u8], count: usize) -> u64
    requires { (count ≤ 15) × (4 * count ≤ length frame.now) }
    ensures { result ≡ total (word_at frame.now) count }
{
    let mut sum: u64 = 0;
    for i in 0..count {
        sum += word_at(frame, i) as u64;
    }
    sum
}

// The ones' complement of a plain sum with its carries brought in.
pub fn complement(sum: u64) -> u32
    ensures { result ≡ 65535 - folded sum }
{
    if sum == 0 {
        return 65535;
    }
    (65534 - (sum - 1) % 65535) as u32
}

// The checksum of a frame whose header has count words.
pub(crate) fn checksum_of(frame: &[u8], count: usize) -> u32
    requires { (3 ≤ count) × (count ≤ 15) × (4 * count ≤ length frame.now) }
    ensures { result ≡ header_checksum (word_at frame.now) count }
{
    let third = word_at(frame, 2);
    complement(sum_words(frame, count) - (third % BITS_16) as u64)
}
