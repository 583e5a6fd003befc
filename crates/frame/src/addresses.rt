// The kinds of an address.
ghost use Rattle.std.specs.Prelude.{◌≡◌};
ghost use Rattle.frame.specs.Addresses.{server, broadcast, addresses_fit};

// The lowest address whose top bit is 1.
pub const TOP_BIT: u32 = 2147483648;
// The last 28 bits, all ones.
pub const ALL_ONES: u32 = 268435455;
// The values of the last 28 bits.
pub const BITS_28: u32 = 268435456;

// Whether an address is a server's.
pub(crate) fn is_server(address: u32) -> bool
    ensures { result ≡ server address }
{
    address < TOP_BIT
}

// Whether an address is a broadcast.
pub(crate) fn is_broadcast(address: u32) -> bool
    ensures { result ≡ broadcast address }
{
    if address < TOP_BIT {
        return false;
    }
    address % BITS_28 == ALL_ONES
}

// Whether each address is of a kind that may stand where it stands.
pub fn addresses_fit(source: u32, destination: u32, has_proxy: bool, proxy: u32) -> bool
    ensures { result ≡ addresses_fit source destination has_proxy proxy }
{
    if !is_server(source) {
        return false;
    }
    if has_proxy {
        if !is_server(destination) {
            return false;
        }
        return is_server(proxy);
    }
    if is_server(destination) {
        return true;
    }
    is_broadcast(destination)
}
