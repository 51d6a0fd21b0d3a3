ghost use Rattle.std.specs.Prelude.{◌≤◌};
ghost use Rattle.access_rules.specs.declared.servers.TheConstants.{MAX_POLL, MIN_POLL};

use net_addr::Addr;

/// The most upstream servers of a configuration.
pub const MAX_SERVERS: usize = 32;

/// The least poll exponent (RFC 5905, section 7.2): requests 16 seconds apart.
pub const MIN_POLL: u8 = 4;

/// The greatest poll exponent (RFC 5905, section 7.2): requests some 36 hours apart.
pub const MAX_POLL: u8 = 17;

/// An upstream server as a configuration line names it.
#[derive(Clone, Copy, Debug, PartialEq, Eq)]
pub struct ServerLine {
    pub addr: Addr,
    /// The id of the key of its packets, 1 to 65535; 0 is no key.
    pub key: u32,
    /// The poll exponent: its requests are 2^poll seconds apart, 4 to 17.
    pub poll: u8,
    pub ghost key_id: { key ≤ 65535 },
    pub ghost at_least: { MIN_POLL ≤ poll },
    pub ghost at_most: { poll ≤ MAX_POLL },
}

#[cfg(test)]
mod tests {
    use super::*;
    use net_addr::Ip;

    #[test]
    fn a_line_names_a_server(rt: HostRuntime) {
        let addr = Addr {
            ip: Ip::V4([192, 0, 2, 1]),
            port: 123,
        };
        let line = ServerLine {
            addr,
            key: 0,
            poll: 6,
        };
        assert_eq!(rt; line.addr, addr);
        assert_eq!(rt; (line.key, line.poll), (0, 6));
    }
}
