ghost use Rattle.std.specs.Prelude.{◌≡◌};
ghost use Rattle.access_rules.specs.Flags.{has_flag};

/// No answer at all.
pub const IGNORE: u16 = 0x0001;

/// No time.
pub const NOSERVE: u16 = 0x0002;

/// No time without a good message authentication code.
pub const NOTRUST: u16 = 0x0004;

/// No packet of another version than 4.
pub const VERSION: u16 = 0x0008;

/// No answer to a control message.
pub const NOQUERY: u16 = 0x0010;

/// No answer to a read of the client list.
pub const NOMRULIST: u16 = 0x0020;

/// A limit on the rate of requests.
pub const LIMITED: u16 = 0x0040;

/// A RATE kiss code where the limit is passed.
pub const KOD: u16 = 0x0080;

/// No change by a control message.
pub const NOMODIFY: u16 = 0x0100;

/// Whether these flags of a rule have the flag.
pub fn has_flag(flags: u16, flag: u16) -> bool
    ensures { result ≡ has_flag flags flag }
{
    flags & flag != 0
}

#[cfg(test)]
mod tests {
    use super::*;

    #[test]
    fn each_flag_is_a_bit_of_its_own(rt: HostRuntime) {
        let flags = [
            IGNORE, NOSERVE, NOTRUST, VERSION, NOQUERY, NOMRULIST, LIMITED, KOD, NOMODIFY,
        ];
        for one in flags {
            for other in flags {
                assert_eq!(rt; has_flag(one, other), one == other, "{one} {other}");
            }
            assert!(rt; has_flag(0x01ff, one), "{one} of all");
            assert!(rt; !has_flag(0, one), "{one} of none");
        }
    }
}
