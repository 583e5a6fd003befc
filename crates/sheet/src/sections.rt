// The read of each section of a sheet, and of the whole: the first field that is refused decides.
ghost use Rattle.std.specs.Prelude.{◌≡◌, true, ◌+◌, ◌-◌, ◌≤◌, length};
ghost use Rattle.hall.specs.Halls.{valid};
ghost use Rattle.sheet.specs.Formats.{read};
ghost use Rattle.sheet.specs.Sheets.{longest, codes, packet, packets, tables_of, night_sheet};

use crate::Field;
use crate::fields::{
    read_b, read_byte, read_code, read_count, read_first, read_fitted, read_k, read_n, read_retry,
    read_uid, read_word,
};
use hall::Hall;

// How many codes from a place on are known for sure, so that reading may go on behind them: where so many bytes are there, many codes are
// looked at together.
fn known_codes(sheet: &[u8], at: usize, count: u32) -> usize
    requires { (at ≤ length sheet.now) × (length sheet.now ≤ longest) }
    ensures { (result ≤ count) × (at + result ≤ length sheet.now) × (read (codes (count - result)) sheet.now (at + result) ≡ read (codes count) sheet.now at) }
{
    let bytes = count as usize;
    if sheet.len() - at < bytes {
        return 0;
    }
    let end = at + bytes;
    ports::first_unknown(&sheet[at..end])
}

// The hall table of so many bytes, one code after the other.
fn read_codes(sheet: &[u8], at: usize, count: u32) -> Field
    requires { (at ≤ length sheet.now) × (length sheet.now ≤ longest) }
    ensures { result ≡ read (codes count) sheet.now at }
{
    let known = known_codes(sheet, at, count);
    let mut next = at + known;
    for _ in known..count as usize {
        let code = read_code(sheet, next);
        let Field::Value(_, behind) = code else {
            return code;
        };
        next = behind;
    }
    Field::Value(0, next)
}

// A packet, whose uids have to be below the limit.
fn read_packet(sheet: &[u8], at: usize, limit: u32) -> Field
    requires { (at ≤ length sheet.now) × (length sheet.now ≤ longest) }
    ensures { result ≡ read (packet limit) sheet.now at }
{
    let source = read_uid(sheet, at, limit);
    let Field::Value(_, dst_at) = source else {
        return source;
    };
    let dst = read_uid(sheet, dst_at, limit);
    let Field::Value(_, retry_at) = dst else {
        return dst;
    };
    let retry = read_retry(sheet, retry_at);
    let Field::Value(_, ttl_at) = retry else {
        return retry;
    };
    read_byte(sheet, ttl_at)
}

// So many packets.
fn read_packets(sheet: &[u8], at: usize, limit: u32, count: u32) -> Field
    requires { (at ≤ length sheet.now) × (length sheet.now ≤ longest) }
    ensures { result ≡ read (packets limit count) sheet.now at }
{
    let mut next = at;
    for _ in 0..count {
        let packet = read_packet(sheet, next, limit);
        let Field::Value(_, behind) = packet else {
            return packet;
        };
        next = behind;
    }
    Field::Value(0, next)
}

// The hall table and the packets of a hall, each behind its count; read for the number of packets.
fn read_tables(sheet: &[u8], at: usize, h: Hall) -> Field
    requires { (at ≤ length sheet.now) × (length sheet.now ≤ longest) × (valid h ≡ true) }
    ensures { result ≡ read (tables_of h) sheet.now at }
{
    let servers = hall::servers_of(h);
    let second = read_count(sheet, at, servers as u64 * (h.k as u64 + 1));
    let Field::Value(bytes, codes_at) = second else {
        return second;
    };
    let codes = read_codes(sheet, codes_at, bytes);
    let Field::Value(_, third_at) = codes else {
        return codes;
    };
    let third = read_word(sheet, third_at);
    let Field::Value(count, packets_at) = third else {
        return third;
    };
    let packets = read_packets(sheet, packets_at, servers, count);
    let Field::Value(_, end) = packets else {
        return packets;
    };
    Field::Value(count, end)
}

// The whole sheet but for what may stand behind it; read for the number of packets.
pub(crate) fn read_whole(sheet: &[u8]) -> Field
    requires { length sheet.now ≤ longest }
    ensures { result ≡ read night_sheet sheet.now 0 }
{
    let first = read_first(sheet);
    let Field::Value(section, n_at) = first else {
        return first;
    };
    let n_field = read_n(sheet, n_at);
    let Field::Value(n, k_at) = n_field else {
        return n_field;
    };
    let k_field = read_k(sheet, k_at, n);
    let Field::Value(k, b_at) = k_field else {
        return k_field;
    };
    let b_field = read_b(sheet, b_at, k);
    let Field::Value(b, count_at) = b_field else {
        return b_field;
    };
    let count_field = read_fitted(sheet, count_at, section, n, k);
    let Field::Value(count, second_at) = count_field else {
        return count_field;
    };
    read_tables(sheet, second_at, Hall { n, k, b, count })
}
