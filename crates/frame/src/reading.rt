// Which frames are accepted, and what an accepted one says.
ghost use Rattle.std.specs.Prelude.{◌≡◌, ◌*◌, ◌≤◌, length, is_some, unwrap_or};
ghost use Rattle.frame.specs.Layout.{proxy, value_in, word_at};
ghost use Rattle.hall.specs.Refusals.{number_of, refusal_in, in_order};
ghost use Rattle.frame.specs.Asks.{Told, asks_header, field_asks, whole_asks, frame_refusal};
ghost use Rattle.frame.specs.Places.{place_of};
ghost use Rattle.frame.specs.Reading.{header_of, header_read};

use crate::Header;
use crate::addresses::addresses_fit;
use crate::checksum::checksum_of;
use crate::layout::{
    BITS_4, BITS_8, BITS_16, DHL_AT, DHL_BYTE, FLAGS_AT, FLAGS_BYTE, PF, PROTOCOL_AT, RETRY_AT,
    TTL_AT, VERSION, VERSION_AT, VERSION_BYTE, WORDS, WORDS_WITH_PROXY, word_at,
};
use hall::refusals::{Fault, Refusal};

// The refusal that version, DHL and flags bring.
#[tactic(auto, using(crate::proofs::Frames::header_asked, crate::specs::Worked::rows_counted))]
pub(crate) fn header_refusal(version: u32, words: usize, flags: usize) -> Result<(), Refusal>
    ensures { refusal_in result ≡ in_order (asks_header version words flags) }
{
    if version != VERSION {
        return Err(Refusal::BadVersion);
    }
    if words < WORDS {
        return Err(Refusal::BadDhl);
    }
    if WORDS_WITH_PROXY < words {
        return Err(Refusal::BadDhl);
    }
    if 1 < flags {
        return Err(Refusal::BadFlags);
    }
    if words != WORDS + flags {
        return Err(Refusal::BadPf);
    }
    Ok(())
}

// The proxy of a frame whose header has count words, the last of them, where it has one.
pub(crate) fn proxy_of(frame: &[u8], count: usize, has_proxy: bool) -> Option<u32>
    requires { (4 * count ≤ length frame.now) × Told (word_at frame.now) count has_proxy }
    ensures flag { is_some result ≡ has_proxy }
    ensures number { unwrap_or result 0 ≡ value_in (word_at frame.now) proxy }
{
    if has_proxy {
        return Some(word_at(frame, count - 1));
    }
    None
}

// The refusal of a frame whose version, DHL and flags are sound.
pub(crate) fn whole_refusal(frame: &[u8], count: usize, has_proxy: bool) -> Result<(), Refusal>
    requires { Told (word_at frame.now) count has_proxy }
    ensures { refusal_in result ≡ in_order (whole_asks frame.now) }
{
    if frame.len() < 4 * count {
        return Err(Refusal::ShortFrame);
    }
    let third = word_at(frame, 2);
    if third % BITS_16 != checksum_of(frame, count) {
        return Err(Refusal::BadChecksum);
    }
    let source = word_at(frame, 3);
    let destination = word_at(frame, 4);
    let proxy = proxy_of(frame, count, has_proxy).unwrap_or(0);
    if !addresses_fit(source, destination, has_proxy, proxy) {
        return Err(Refusal::BadAddress);
    }
    let first = word_at(frame, 0);
    let end = 4 * count + (first % BITS_16) as usize;
    if frame.len() < end {
        return Err(Refusal::ShortFrame);
    }
    Ok(())
}

// The refusal that version, DHL and flags of a frame of at least 20 bytes bring.
pub(crate) fn fields_refusal(frame: &[u8]) -> Result<(), Refusal>
    requires { 20 ≤ length frame.now }
    ensures { refusal_in result ≡ in_order (field_asks frame.now) }
{
    let first = word_at(frame, 0);
    let third = word_at(frame, 2);
    let words = (first / DHL_AT % BITS_4) as usize;
    let flags = (third / FLAGS_AT % BITS_4) as usize;
    header_refusal(first / VERSION_AT % BITS_4, words, flags)
}

// Whether a frame is accepted.
#[tactic(auto, using(crate::proofs::Frames::frame_asked))]
pub(crate) fn frame_refusal(frame: &[u8]) -> Result<(), Refusal>
    ensures { refusal_in result ≡ frame_refusal frame.now }
{
    if frame.len() < 4 * WORDS {
        return Err(Refusal::ShortFrame);
    }
    fields_refusal(frame)?;
    let first = word_at(frame, 0);
    let third = word_at(frame, 2);
    let words = (first / DHL_AT % BITS_4) as usize;
    let has_proxy = third / FLAGS_AT % BITS_4 % 2 == PF;
    whole_refusal(frame, words, has_proxy)
}

// The place that a refusal tells: the first byte of the field that it is about, 0 where it is about none.
pub(crate) fn place_of(refusal: Refusal) -> u32
    ensures { result ≡ place_of (number_of refusal) }
{
    match refusal {
        Refusal::BadVersion => VERSION_BYTE,
        Refusal::BadDhl => DHL_BYTE,
        Refusal::BadFlags => FLAGS_BYTE,
        Refusal::BadPf => FLAGS_BYTE,
        _ => 0,
    }
}

// A refusal with its place.
pub(crate) fn fault_of(refusal: Refusal) -> Fault
    ensures { result ≡ record { refusal = refusal; place = place_of (number_of refusal) } }
{
    let place = place_of(refusal);
    Fault { refusal, place }
}

// The fields of a frame that is accepted.
pub(crate) fn header_of(frame: &[u8]) -> Header
    requires { frame_refusal frame.now ≡ 0 }
    ensures { header_read result ≡ header_of (value_in (word_at frame.now)) }
{
    let first = word_at(frame, 0);
    let second = word_at(frame, 1);
    let third = word_at(frame, 2);
    let source = word_at(frame, 3);
    let destination = word_at(frame, 4);
    let words = (first / DHL_AT % BITS_4) as usize;
    let has_proxy = third / FLAGS_AT % BITS_4 % 2 == PF;
    let proxy = proxy_of(frame, words, has_proxy);
    let header_length = 4 * (first / DHL_AT % BITS_4);
    Header {
        protocol: first / PROTOCOL_AT % BITS_8,
        payload_length: first % BITS_16,
        identification: second,
        retry: third / RETRY_AT % BITS_4,
        ttl: third / TTL_AT % BITS_8,
        source,
        destination,
        proxy,
        header_length,
    }
}
