use edge_traits::{
    Clock, Failed, Host, HostFault, Incoming, MemoryClock, MemoryFile, MemoryHost, MemoryPort,
    Name, Octets, Port, Salt, Source, Taken, read_whole,
};
use fixed_time::Ntp64;
use net_addr::{Addr, Ip};
use std::alloc::Global;
use std::test::Fail;

const SERVER: Addr = Addr {
    ip: Ip::V4([192, 0, 2, 1]),
    port: 123,
};

#[test]
fn binds_follow_the_list_and_at_its_end_ports_are_empty(rt: HostRuntime) -> Result<(), Fail> {
    let alloc = rt.alloc();
    let quiet = MemoryPort::of(alloc, vec![in alloc; Incoming::Quiet]?, Vec::new(alloc));
    let clock = MemoryClock::of(vec![in alloc; 7]?);
    let mut host = MemoryHost::of(
        alloc,
        Vec::new(alloc),
        vec![in alloc; quiet]?,
        vec![in alloc; clock]?,
        Ntp64(0x83aa_7e80 << 32),
        Salt([3; 16]),
        vec![in alloc; 0]?,
    );
    let mut into = Octets::new();
    assert!(rt; matches!(host.bind(&SERVER), Err(HostFault::Failed)));
    assert_eq!(rt; host.bind(&SERVER)?.take(&mut into)?, Taken::Quiet);
    assert_eq!(rt; host.bind(&SERVER)?.take(&mut into)?, Taken::Closed);
    assert_eq!(rt; host.clock().now(), 7);
    assert_eq!(rt; host.clock().now(), 0);
    assert_eq!(rt; host.origin(), Ntp64(0x83aa_7e80 << 32));
    assert_eq!(rt; host.salt().0, [3; 16]);
    Ok(())
}

fn file(alloc: Global, name: &[u8], octets: &[u8], failing: u64) -> Result<MemoryFile, Fail> {
    Ok(MemoryFile {
        name: Name::of(Vec::from_slice(alloc, name)?),
        octets: Vec::from_slice(alloc, octets)?,
        failing: vec![in alloc; failing]?,
    })
}

#[test]
fn each_source_of_a_name_has_the_octets_of_its_first_file(rt: HostRuntime) -> Result<(), Fail> {
    let alloc = rt.alloc();
    let other = file(alloc, b"ntp.keys", b"other", 9)?;
    let first = file(alloc, b"ntp.conf", b"first", 2)?;
    let second = file(alloc, b"ntp.conf", b"second", 9)?;
    let mut host = MemoryHost::of(
        alloc,
        vec![in alloc; other, first, second]?,
        Vec::new(alloc),
        Vec::new(alloc),
        Ntp64(0),
        Salt([3; 16]),
        vec![in alloc; 2, 4]?,
    );
    for turn in ["once", "twice"] {
        let mut source = host.source("ntp.conf")?;
        let whole = read_whole(alloc, &mut source, 6)?;
        assert_eq!(rt; whole.as_slice(), b"first".as_slice(), "{turn}");
        assert_eq!(rt; source.read(&mut [0; 1]), Err(Failed), "{turn}");
    }
    // The calls with the numbers 2 and 4 fail, and so does a name that is not there.
    assert!(rt; matches!(host.bind(&SERVER), Err(HostFault::Failed)));
    assert!(rt; host.bind(&SERVER).is_ok());
    assert!(rt; matches!(host.source("ntp.conf"), Err(HostFault::Failed)));
    assert!(rt; matches!(host.source("ntp.con"), Err(HostFault::Failed)));
    assert!(rt; host.source("ntp.keys").is_ok());
    Ok(())
}
