ghost use Rattle.std.specs.Prelude.{◌≡◌, ◌↔◌, ◌+◌, ◌*◌, ◌%◌, ◌^◌, ◌≤◌, Contains, length};
ghost use Rattle.std.specs.List.{AllByRecursion};
ghost use Rattle.hex.specs.Hex.{lower_digits};
ghost use Rattle.mode6_nonce.specs.declared.making.TheConstants.{NONCE_LEN};
ghost use Rattle.mode6_nonce.specs.Nonces.{IsGood, nonce_of};

use edge_traits::Salt;
use net_addr::Ip;

/// What was made at a time is good for its address from then on to 16 seconds later, and at no other
/// time: not one unit of 2^-32 seconds later, nor before. `later` counts such units, and reaches every
/// time, since times are taken modulo 2^64.
pub fn nonces_live_16_seconds(salt: &Salt, ip: &Ip, time: u64, later: u64)
    ensures { IsGood salt.now ip.now (nonce_of salt.now ip.now time) ((time + later) % 2 ^ 64)
        ↔ (later ≤ 16 * 2 ^ 32) }
{}

/// Nonces of different times differ, whatever the salts and the addresses.
pub fn times_are_told_apart(
    salt: &Salt,
    ip: &Ip,
    time: u64,
    other_salt: &Salt,
    other_ip: &Ip,
    other: u64,
)
    requires { nonce_of salt.now ip.now time ≡ nonce_of other_salt.now other_ip.now other }
    ensures { time ≡ other }
{}

/// A good nonce is 24 lower-case hexadecimal digits: octets of another length, or with upper-case
/// digits, are none.
pub fn good_nonces_are_24_digits(salt: &Salt, ip: &Ip, nonce: &[u8], now: u64)
    requires { IsGood salt.now ip.now nonce.now now }
    ensures length { length nonce.now ≡ NONCE_LEN }
    ensures digits { AllByRecursion (λ digit. Contains lower_digits digit) nonce.now }
{}
