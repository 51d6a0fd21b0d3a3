use super::unheard::unheard;
use edge_traits::Salt;
use fixed_time::Ntp64;
use mode6_frame::Head;
use net_addr::{Addr, Ip};
use std::test::Fail;
use sys_vars::answering::answer;
use sys_vars::{Answer, Asked, Context, Record, What};

const CONTEXT: Context = Context {
    salt: Salt([0; 16]),
    origin: Ntp64(0),
    moment: 0,
};

fn asked(assoc: u16, what: What) -> Asked {
    Asked {
        from: Addr {
            ip: Ip::V4([192, 0, 2, 1]),
            port: 123,
        },
        head: Head {
            version: 2,
            opcode: 1,
            sequence: 1,
            status: 0,
            assoc,
        },
        what,
    }
}

// The peer of association 1 was never heard of: 0x8000.
#[test]
fn a_status_is_told_or_refused(rt: HostRuntime) -> Result<(), Fail> {
    let mut record = Record::opening(rt.alloc(), Ntp64(0))?;
    record.peers.clear();
    record.peers.push(unheard());
    let cases = [
        (
            0,
            b"\x16\x81\x00\x01\xc0\x11\x00\x00\x00\x00\x00\x04\x00\x01\x80\x00".as_slice(),
        ),
        (
            1,
            b"\x16\x81\x00\x01\x80\x00\x00\x01\x00\x00\x00\x00".as_slice(),
        ),
        (
            9,
            b"\x16\xc1\x00\x01\x04\x00\x00\x09\x00\x00\x00\x00".as_slice(),
        ),
    ];
    for (assoc, wanted) in cases {
        let asked = asked(assoc, What::Status);
        let Answer::Given { epoch, grams } = answer(rt.alloc(), &record, &asked, &CONTEXT)? else {
            assert!(rt; false, "there is no answer");
            return Ok(());
        };
        assert_eq!(rt; (epoch, grams.len()), (0, 1));
        assert!(rt; grams.get(0).as_slice() == wanted, "{assoc}");
    }
    Ok(())
}
