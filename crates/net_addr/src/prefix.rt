ghost use Rattle.std.specs.Prelude.{◌≡◌, ◌≤◌, ◌%◌, ◌^◌, ◌-◌};
ghost use Rattle.net_addr.specs.Addresses.{bits_of, number_of};

use crate::addr::Ip;

/// The addresses of one family that begin with the same bits.
#[derive(Clone, Copy, Debug, PartialEq, Eq)]
pub struct Prefix {
    /// The address whose first `length` bits they share. Its other bits are 0.
    pub ip: Ip,
    /// How many bits they share: 0 to 32 for IPv4, 0 to 128 for IPv6.
    pub length: u8,
    pub ghost within: { length ≤ bits_of ip },
    pub ghost host_bits: { number_of ip % 2 ^ (bits_of ip - length) ≡ 0 },
}
