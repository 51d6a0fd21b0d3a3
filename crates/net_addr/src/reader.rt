ghost use Rattle.std.specs.Prelude.{◌≡◌, ◌↔◌, Some, IsNone, IfSome};
ghost use Rattle.net_addr.specs.Readings.{addr_in};
ghost use Rattle.net_addr.specs.Spelling.{IsAddr, Spells, StandsFor};
ghost use Rattle.net_addr.specs.declared.addr.Addr.{Addr};

use crate::addr::Addr;
use crate::ip_reader::{read_bare, read_host};
use crate::numbers::cut_number;

/// The address that a text with a port spells, as `1.2.3.4:123` and `[::1]:123` do. Nothing may
/// stand before it or after it, no decimal number has a sign or leading zeros, and there is no zone.
pub fn read_named(text: &[u8]) -> Option<Addr>
    ensures value { result ≡ addr_in text.now }
    ensures found { IfSome result (λ a. Spells text.now a) }
    ensures fits { IfSome result (λ a. IsAddr a) }
    ensures only { (a : Addr) → IsAddr a → Spells text.now a → result ≡ Some a }
    ensures none { IsNone result ↔ ((a : Addr) → IsAddr a → ¬ (Spells text.now a)) }
{
    let Some((host, port)) = cut_number(text, b':') else {
        return None;
    };
    match read_host(host) {
        Some(ip) => Some(Addr { ip, port }),
        None => None,
    }
}

/// The address that a text spells, as `read_named` reads it, or as `1.2.3.4`, `::1` and `[::1]`,
/// whose port is then `port`.
pub fn read_text(text: &[u8], port: u16) -> Option<Addr>
    ensures found { IfSome result (λ a. StandsFor text.now port a) }
    ensures fits { IfSome result (λ a. IsAddr a) }
    ensures only { (a : Addr) → IsAddr a → StandsFor text.now port a → result ≡ Some a }
    ensures none { IsNone result ↔ ((a : Addr) → IsAddr a → ¬ (StandsFor text.now port a)) }
{
    match read_bare(text) {
        Some(ip) => Some(Addr { ip, port }),
        None => read_named(text),
    }
}

#[cfg(test)]
mod tests {
    use super::{read_named, read_text};
    use crate::{Addr, Ip, read_ip, write_ip, write_text};

    fn v6(number: u128) -> Ip {
        Ip::V6(number.to_be_bytes())
    }

    // Whatever the default port, what was written is read back.
    fn read_back(a: &Addr, port: u16) -> Option<Addr>
        ensures { result ≡ Some a.now }
    {
        read_text(write_text(a).as_slice(), port)
    }

    fn read_back_named(a: &Addr) -> Option<Addr>
        ensures { result ≡ Some a.now }
    {
        read_named(write_text(a).as_slice())
    }

    fn read_back_ip(ip: &Ip) -> Option<Ip>
        ensures { result ≡ Some ip.now }
    {
        read_ip(write_ip(ip).as_slice())
    }

    // RFC 5952, sections 4 and 5.
    #[test]
    fn texts_of_the_standard_are_read_and_written(rt: HostRuntime) {
        for (read, number, written) in [
            (
                "2001:0db8::0001",
                0x20010db8_00000000_00000000_00000001,
                "2001:db8::1",
            ),
            (
                "2001:db8:0:0:0:0:2:1",
                0x20010db8_00000000_00000000_00020001,
                "2001:db8::2:1",
            ),
            (
                "2001:db8:0:1:1:1:1:1",
                0x20010db8_00000001_00010001_00010001,
                "2001:db8:0:1:1:1:1:1",
            ),
            (
                "2001:0:0:1:0:0:0:1",
                0x20010000_00000001_00000000_00000001,
                "2001:0:0:1::1",
            ),
            (
                "2001:DB8:0:0:1:0:0:1",
                0x20010db8_00000000_00010000_00000001,
                "2001:db8::1:0:0:1",
            ),
            (
                "2001:DB8::ABCD",
                0x20010db8_00000000_00000000_0000abcd,
                "2001:db8::abcd",
            ),
            (
                "::ffff:192.0.2.1",
                0x00000000_00000000_0000ffff_c0000201,
                "::ffff:c000:201",
            ),
            ("0:0:0:0:0:0:0:0", 0, "::"),
            (
                "1:2:3:4:5:6::8",
                0x00010002_00030004_00050006_00000008,
                "1:2:3:4:5:6:0:8",
            ),
        ] {
            let ip = v6(number);
            assert_eq!(rt; read_ip(read.as_bytes()), Some(ip), "read {read}");
            assert_eq!(rt;
                write_ip(&ip).as_slice(),
                written.as_bytes(),
                "write {read}"
            );
            assert_eq!(rt; read_back_ip(&ip), Some(ip), "back {read}");
        }
    }

    #[test]
    fn worked_texts_are_written_and_read(rt: HostRuntime) {
        for (ip, port, text) in [
            (Ip::V4([127, 0, 0, 1]), 123, "127.0.0.1:123"),
            (Ip::V4([0, 0, 0, 0]), 0, "0.0.0.0:0"),
            (Ip::V4([255, 255, 255, 255]), 65535, "255.255.255.255:65535"),
            (v6(1), 123, "[::1]:123"),
            (
                v6(0x20010db8_12345678_9abcdef0_fedcba98),
                65535,
                "[2001:db8:1234:5678:9abc:def0:fedc:ba98]:65535",
            ),
        ] {
            let a = Addr { ip, port };
            let written = write_text(&a);
            assert_eq!(rt; written.as_slice(), text.as_bytes(), "write {text}");
            assert_eq!(rt; written.len(), text.len(), "length of {text}");
            assert_eq!(rt; read_named(text.as_bytes()), Some(a), "read {text}");
            assert_eq!(rt; read_back(&a, 5), Some(a), "back {text}");
            assert_eq!(rt; read_back_named(&a), Some(a), "back named {text}");
        }
    }

    #[test]
    fn a_text_without_a_port_has_the_default(rt: HostRuntime) {
        for (text, ip) in [
            ("1.2.3.4", Ip::V4([1, 2, 3, 4])),
            ("::1", v6(1)),
            ("[::1]", v6(1)),
            ("::1:123", v6(0x10123)),
        ] {
            let a = Addr { ip, port: 5 };
            assert_eq!(rt; read_text(text.as_bytes(), 5), Some(a), "{text}");
            assert_eq!(rt; read_named(text.as_bytes()), None, "{text} names no port");
        }
        let named = Addr {
            ip: v6(1),
            port: 123,
        };
        assert_eq!(rt; read_text(b"[::1]:123", 5), Some(named), "its own port");
    }

    #[test]
    fn other_texts_are_refused(rt: HostRuntime) {
        for text in [
            "",
            "nowhere",
            "1.2.3",
            "1.2.3.4.5",
            "010.0.0.1",
            "1.2.3.256",
            "1.2.3.4:",
            "1.2.3.4:0123",
            "1.2.3.4:65536",
            "1.2.3.4:4294967296",
            " 1.2.3.4",
            "1.2.3.4 ",
            "1.2.3.4:1:2",
            "-1.2.3.4",
            "1.2.3.4:+5",
            ":5",
            "[1.2.3.4]:5",
            "1::2::3",
            "1:2:3:4:5:6:7",
            "1:2:3:4:5:6:7:8:9",
            "1:2:3:4::5:6:7:8",
            "12345::",
            ":::",
            "::g",
            "1.2.3.4::",
            "::1.2.3.256",
            "fe80::1%eth0",
            "[fe80::1%0]:123",
            "[::1",
            "::1]",
            "[::1]:",
            "[::1]:0123",
            "[::1]123",
            "[[::1]]:5",
        ] {
            assert_eq!(rt;
                read_text(text.as_bytes(), 123),
                None,
                "read_text of '{text}'"
            );
            assert_eq!(rt; read_named(text.as_bytes()), None, "read_named of '{text}'");
        }
    }
}
