use mode6_frame::{SYSTEM_PEER, read_items};
use ntpq_report::{as_report, peer_line, peers_header, read_associations, rv_report};
use std::test::Fail;

#[test]
fn each_report_is_made_of_an_answer(rt: HostRuntime) -> Result<(), Fail> {
    let alloc = rt.alloc();
    let items = read_items(alloc, b"stratum=16, version=\"ntpd profile 1\"\r\n")?;
    let variables = rv_report(alloc, 0, 0xc011, &items)?;
    let lines = b"associd=0 status=c011\nstratum=16,\nversion=\"ntpd profile 1\"\n";
    assert!(rt; variables.as_slice() == lines.as_slice());

    let body = b"\x00\x01\x80\x00";
    assert_eq!(rt; read_associations(alloc, body)?.len(), 1);
    let associations = as_report(alloc, body)?;
    let lines = b"ind assid status\n  1     1 8000\n";
    assert!(rt; associations.as_slice() == lines.as_slice());
    let none = as_report(alloc, b"")?;
    assert!(rt; none.as_slice() == b"no associations\n".as_slice());

    let header = b" remote                                  refid           st   poll reach\
        \x20         delay         offset         jitter\n";
    assert!(rt; peers_header(alloc)?.as_slice() == header.as_slice());
    let text = b"srcadr=10.0.0.1, refid=INIT, stratum=16, hpoll=6, reach=000, delay=0.000000,\r\n\
        offset=-0.499999, jitter=0.000000\r\n";
    let line = peer_line(alloc, SYSTEM_PEER, &read_items(alloc, text)?)?;
    let wanted = b"*10.0.0.1                                INIT            16     64   000\
        \x20      0.000000      -0.499999       0.000000\n";
    assert!(rt; line.as_slice() == wanted.as_slice());
    Ok(())
}
