use super::unheard::unheard;
use access_rules::{IGNORE, Rate};
use fixed_time::Ntp64;
use net_addr::{Ip, prefix_of};
use std::test::Fail;
use sys_vars::{PeerViews, Record};

#[test]
fn a_copy_has_the_peers_and_the_rules(rt: HostRuntime) -> Result<(), Fail> {
    let mut record = Record::opening(rt.alloc(), Ntp64(7))?;
    record.epoch = 3;
    record.system.stratum = 2;
    record.peers = PeerViews::of(vec![in rt.alloc(); unheard(); 1]?)?;
    record
        .rules
        .add(&prefix_of(&Ip::V4([10, 0, 0, 0]), 8), IGNORE)?;
    let copy = record.copy()?;
    let mut other = Record::opening(rt.alloc(), Ntp64(0))?;
    other.assign(&copy);
    assert_eq!(rt; (other.epoch, other.system.stratum), (3, 2));
    assert_eq!(rt; (other.peers.len(), other.rules.len()), (1, 3));
    assert_eq!(rt; copy.epoch, 3);
    assert_eq!(rt; copy.system, record.system);
    assert_eq!(rt; copy.peers.len(), 1);
    assert_eq!(rt; *copy.peers.get(0), unheard());
    assert_eq!(rt; copy.rules.len(), 3);
    assert_eq!(rt; copy.rate, Rate::plain());
    assert_eq!(rt; copy.clock, record.clock);
    Ok(())
}
