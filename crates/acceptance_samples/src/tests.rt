use access_rules::{KOD, LIMITED, NOQUERY, flags_for};
use conf_file::read_conf;
use net_addr::Ip;
use std::test::Fail;

/// The lines of etc/ntpd.conf, without its comments.
const SAMPLE: &[u8] = b"listen [::]:123
server 192.0.2.1 minpoll 6
server 2001:db8::123 minpoll 6
keys /run/credentials/sarquteb-ntpd.service/ntpd.keys
restrict default limited kod noquery
restrict 127.0.0.1
restrict ::1
restrict 192.0.2.0/24 limited kod nomrulist
restrict 2001:db8::/32 limited kod nomrulist
restrict 198.51.100.0 mask 255.255.255.0
limit average 60 burst 20 kod 2
mru mindepth 600 maxdepth 4096 minage 64 maxage 3600
";

#[test]
fn the_sample_configuration_is_read(rt: HostRuntime) -> Result<(), Fail> {
    let conf = read_conf(rt.alloc(), SAMPLE)?;
    assert_eq!(rt; conf.listen.len(), 1);
    assert_eq!(rt; conf.servers.len(), 2);
    assert_eq!(rt; conf.limits.maxdepth, 4096);
    for (ip, flags) in [
        (Ip::V4([203, 0, 113, 9]), LIMITED | KOD | NOQUERY),
        (Ip::V4([127, 0, 0, 1]), 0),
        (Ip::V4([198, 51, 100, 7]), 0),
    ] {
        assert_eq!(rt; flags_for(&conf.rules, &ip), flags);
    }
    Ok(())
}
