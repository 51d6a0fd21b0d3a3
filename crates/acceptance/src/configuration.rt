use access_rules::{
    IGNORE, KOD, LIMITED, NOMODIFY, NOMRULIST, NOQUERY, NOSERVE, NOTRUST, VERSION, flags_for,
};
use conf_file::{ConfFault, read_conf};
use net_addr::{read_ip, read_named};
use std::test::Fail;

/// One file that uses every line.
const EXAMPLE: &[u8] = b"# Where the server listens: at most 8 lines.
listen 0.0.0.0:123
listen [::]:123

# Whom it asks: at most 32 lines.
server 192.0.2.1 key 7 minpoll 4 maxpoll 10 iburst
server [2001:db8::1]:1123 burst

# Who may ask.
restrict default limited kod nomodify nopeer notrap
restrict -6 default noquery
restrict -4 127.0.0.1
restrict 192.0.2.0 mask 255.255.255.0 noserve
restrict 192.0.2.9/24 notrust
restrict 2001:db8::/32 nomrulist version ignore
limit average 30 burst 10 kod 5
mru mindepth 100 maxdepth 2000 minage 16 maxage 600

keys /etc/ntp.keys
local 10
frequency -1500

# These have no effect.
driftfile /var/lib/ntp/ntp.drift
leapfile /usr/share/zoneinfo/leap-seconds.list
logfile /var/log/ntp.log
logconfig =syncstatus +sysevents
statsdir /var/log/ntpstats
statistics loopstats peerstats
filegen loopstats file loopstats type day enable
tos minsane 2
tinker step 0.128
";

#[test]
fn the_example_means_its_configuration(rt: HostRuntime) -> Result<(), Fail> {
    let conf = read_conf(rt.alloc(), EXAMPLE)?;
    assert_eq!(rt; conf.listen.len(), 2);
    assert_eq!(rt; Some(conf.listen.get(0)), read_named(b"0.0.0.0:123"));
    assert_eq!(rt; Some(conf.listen.get(1)), read_named(b"[::]:123"));
    assert_eq!(rt; conf.servers.len(), 2);
    let servers = [
        (b"192.0.2.1:123".as_slice(), 7, 4),
        (b"[2001:db8::1]:1123".as_slice(), 0, 6),
    ];
    for (line, (text, key, poll)) in conf.servers.as_slice().iter().zip(servers) {
        assert_eq!(rt;
            (Some(line.addr), line.key, line.poll),
            (read_named(text), key, poll)
        );
    }
    let rate = conf.rate;
    assert_eq!(rt; (rate.average, rate.burst, rate.spacing), (30, 10, 5 << 32));
    let limits = conf.limits;
    assert_eq!(rt; (limits.mindepth, limits.maxdepth), (100, 2000));
    assert_eq!(rt; (limits.minage, limits.maxage), (16 << 32, 600 << 32));
    let keys = conf.keys.as_ref().ok_or("a name")?;
    assert!(rt; keys.as_slice() == b"/etc/ntp.keys".as_slice());
    assert_eq!(rt; (conf.local, conf.freq), (Some(10), Some(-1500)));
    Ok(())
}

#[test]
fn the_example_means_its_rules(rt: HostRuntime) -> Result<(), Fail> {
    let conf = read_conf(rt.alloc(), EXAMPLE)?;
    assert_eq!(rt; conf.rules.len(), 5);
    let both = LIMITED | KOD | NOMODIFY;
    let cases = [
        (b"198.51.100.1".as_slice(), both),
        (b"127.0.0.1".as_slice(), 0),
        (b"192.0.2.255".as_slice(), NOSERVE | NOTRUST),
        (b"::1".as_slice(), both | NOQUERY),
        (b"2001:db8:ffff::".as_slice(), NOMRULIST | VERSION | IGNORE),
    ];
    for (text, flags) in cases {
        let ip = read_ip(text).ok_or("an address")?;
        assert_eq!(rt; flags_for(&conf.rules, &ip), flags, "{text:?}");
    }
    Ok(())
}

#[test]
fn an_empty_file_has_the_defaults(rt: HostRuntime) -> Result<(), Fail> {
    let conf = read_conf(rt.alloc(), b"\r\n # nothing\n\t")?;
    assert_eq!(rt; conf.listen.len(), 1);
    assert_eq!(rt; Some(conf.listen.get(0)), read_named(b"0.0.0.0:123"));
    assert_eq!(rt; (conf.servers.len(), conf.rules.len()), (0, 2));
    let rate = conf.rate;
    assert_eq!(rt; (rate.average, rate.burst, rate.spacing), (60, 20, 2 << 32));
    let limits = conf.limits;
    assert_eq!(rt; (limits.mindepth, limits.maxdepth), (600, 1024));
    assert_eq!(rt; (limits.minage, limits.maxage), (64 << 32, 3600 << 32));
    assert!(rt; conf.keys.is_none());
    assert_eq!(rt; (conf.local, conf.freq), (None, None));
    Ok(())
}

/// The least numbers of each line, and the greatest.
const LEAST: &[u8] = b"server ::1 iburst maxpoll 4 key 1 burst minpoll 4
restrict ::/0 ignore noserve notrust version noquery
limit average 1 burst 1 kod 0
mru mindepth 0 maxdepth 1 minage 0 maxage 0
frequency -2147483
local 1
";

const GREATEST: &[u8] = b"server ::1 key 65535 minpoll 17 maxpoll 17 burst iburst
restrict ::1 nomrulist limited kod nomodify nopeer notrap
restrict fe80::1 mask ffff:: kod
limit burst 1000 kod 86400 average 60000
mru maxdepth 16384 mindepth 16384 maxage 2147483647 minage 2147483647
frequency 2147483\r\nlocal 15";

#[test]
fn the_least_and_the_greatest_numbers_are_taken(rt: HostRuntime) -> Result<(), Fail> {
    for (text, local, freq) in [(LEAST, 1, -2_147_483), (GREATEST, 15, 2_147_483)] {
        let conf = read_conf(rt.alloc(), text)?;
        assert_eq!(rt; (conf.local, conf.freq), (Some(local), Some(freq)));
    }
    Ok(())
}

#[test]
fn a_text_is_refused_at_its_first_refused_word(rt: HostRuntime) {
    for (text, line, word) in [
        (b"Listen 1.2.3.4:5".as_slice(), 1, 1),
        (b"\n\nlisten # nothing".as_slice(), 3, 2),
        (b"listen 1.2.3.4".as_slice(), 1, 2),
        (b"listen 1.2.3.4:5 x".as_slice(), 1, 3),
        (b"server ntp.example".as_slice(), 1, 2),
        (b"server ::1 prefer".as_slice(), 1, 3),
        (b"server ::1 key 0".as_slice(), 1, 4),
        (b"server ::1 key 01".as_slice(), 1, 4),
        (b"server ::1 minpoll 18".as_slice(), 1, 4),
        (b"server ::1 burst key 1 burst".as_slice(), 1, 6),
        (b"limit".as_slice(), 1, 2),
        (b"limit burst".as_slice(), 1, 3),
        (b"limit kod 86401".as_slice(), 1, 3),
        (b"mru maxdepth 0".as_slice(), 1, 3),
        (b"mru mindepth 1025".as_slice(), 1, 4),
        (b"mru minage 10 maxage 9 # less".as_slice(), 1, 6),
        (b"mru maxage 64\nmru x".as_slice(), 2, 1),
        (b"keys a\x7f".as_slice(), 1, 2),
        (b"local 16".as_slice(), 1, 2),
        (b"local 1 2".as_slice(), 1, 3),
        (b"frequency -0".as_slice(), 1, 2),
        (b"frequency +1".as_slice(), 1, 2),
        (b"frequency -2147484".as_slice(), 1, 2),
    ] {
        let fault = read_conf(rt.alloc(), text).err();
        assert_eq!(rt; fault, Some(ConfFault::At { line, word }), "{text:?}");
    }
}

#[test]
fn a_restrict_line_is_refused_at_its_first_refused_word(rt: HostRuntime) {
    for (text, word) in [
        (b"restrict".as_slice(), 2),
        (b"restrict -4".as_slice(), 3),
        (b"restrict -4 -4".as_slice(), 3),
        (b"restrict -6 10.0.0.0/8".as_slice(), 3),
        (b"restrict 10.0.0.0/33".as_slice(), 2),
        (b"restrict 10.0.0.0/8 mask 255.0.0.0".as_slice(), 3),
        (b"restrict default mask 0.0.0.0".as_slice(), 3),
        (b"restrict 10.0.0.0 mask".as_slice(), 4),
        (b"restrict 10.0.0.0 mask 255.0.255.0".as_slice(), 4),
        (b"restrict 10.0.0.0 mask ffff::".as_slice(), 4),
        (b"restrict 10.0.0.0 mask 255.0.0.0 mask".as_slice(), 5),
        (b"restrict 10.0.0.0 serve".as_slice(), 3),
        (b"restrict -6 default notrap kod notrap".as_slice(), 6),
    ] {
        let fault = read_conf(rt.alloc(), text).err();
        assert_eq!(rt; fault, Some(ConfFault::At { line: 1, word }), "{text:?}");
    }
}
