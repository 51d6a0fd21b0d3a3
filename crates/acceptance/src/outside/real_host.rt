use edge_traits::real_host::random_octets;
use edge_traits::{Clock, Host, HostFault, ReadFault, RealHost, Source, read_whole};
use fixed_time::Ntp64;
use net_addr::{Addr, Ip};
use std::io::ErrorKind;
use std::random::RandomSource;
use std::test::Fail;
use std::time::Duration;
use std::{fs, io, process, time};

#[test]
fn a_host_has_a_wall_clock_a_salt_and_ports(rt: HostRuntime) -> Result<(), Fail> {
    let mut host = RealHost::new(rt);
    // The first day of 2025 began 3,944,678,400 seconds after 1900 did.
    assert!(rt; host.origin().0 >> 32 >= 3_944_678_400);
    assert_eq!(rt; host.origin(), host.origin());
    let salt = host.salt();
    assert_eq!(rt; host.salt().0, salt.0);
    assert_ne!(rt; salt.0, [0; 16]);
    let reading = host.clock().now();
    assert!(rt; host.clock().now() >= reading);

    let at = Addr {
        ip: Ip::V4([127, 0, 0, 1]),
        port: 0,
    };
    let port = host.bind(&at)?;
    let taken = port.local().ok_or("the system tells no address")?;
    assert!(rt; matches!(host.bind(&taken), Err(HostFault::Failed)));
    Ok(())
}

#[test]
fn a_file_of_the_system_is_read_whole(rt: HostRuntime) -> Result<(), Fail> {
    let alloc = rt.alloc();
    let name = format!(in alloc; "/tmp/edge_traits_{}", process::id(rt.process()))?;
    let octets = vec![in alloc; 7u8; 10_000]?;
    fs::write(&rt, name.as_str(), octets.as_slice())?;
    let mut host = RealHost::new(rt);
    let mut source = host.source(name.as_str())?;
    let whole = read_whole(alloc, &mut source, 10_000)?;
    fs::remove_file(&rt, name.as_str())?;
    assert!(rt; whole.as_slice() == octets.as_slice());
    assert!(rt; matches!(host.source(name.as_str()), Err(HostFault::Failed)));
    Ok(())
}

#[test]
fn an_endless_file_is_too_long_and_a_directory_fails_as_it_is_read(
    rt: HostRuntime,
) -> Result<(), Fail> {
    let alloc = rt.alloc();
    let mut host = RealHost::new(rt);
    let mut endless = host.source("/dev/zero")?;
    assert!(rt;
        matches!(
            read_whole(alloc, &mut endless, 5_000),
            Err(ReadFault::TooLong)
        )
    );
    let mut directory = host.source("/dev")?;
    assert!(rt;
        matches!(
            read_whole(alloc, &mut directory, 5_000),
            Err(ReadFault::Failed)
        )
    );
    Ok(())
}

/// A system whose wall clock can't be read, and whose random source fails after one octet.
#[derive(Drop)]
struct Broken;

impl time::Clock for Broken {
    fn monotonic(&self) -> io::Result<Duration> {
        Ok(Duration::ZERO)
    }

    fn since_1970(&self) -> io::Result<Duration> {
        Err(io::Error::from(ErrorKind::Unsupported))
    }
}

impl RandomSource for Broken {
    fn fill_bytes(&self, buf: &mut [u8]) -> io::Result<()> {
        if let Some(first) = buf.first_mut() {
            *first = 7;
        }
        Err(io::Error::from(ErrorKind::Unsupported))
    }
}

#[test]
fn a_broken_system_gives_no_origin_and_no_salt(rt: HostRuntime) {
    assert!(rt; random_octets(&Broken).is_none());
    let mut host = RealHost::of(
        rt,
        None,
        time::Clock::since_1970(&Broken).ok(),
        random_octets(&Broken),
    );
    assert_eq!(rt; host.origin(), Ntp64(0));
    assert_eq!(rt; host.salt().0, [0; 16]);
}
