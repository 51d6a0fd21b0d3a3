use mode6_frame::{Frame, Groups, Step, Unused};
use std::test::Fail;

fn fragment(offset: u16, more: bool, body: &[u8]) -> Frame<'_> {
    Frame {
        leap: 0,
        version: 2,
        response: true,
        error: false,
        more,
        opcode: 2,
        sequence: 7,
        status: 0x0615,
        assoc: 0,
        offset,
        body,
        rest: &[],
    }
}

#[test]
fn the_last_fragment_waits_for_the_first(rt: HostRuntime) -> Result<(), Fail> {
    let mut groups = Groups::new(rt.alloc(), 2, 7);
    let last = fragment(31, false, b"resp=0x000000000000002a, b=2\r\n");
    let first = fragment(0, true, b"resp=0x000000000000002a, a=1,\r\n");
    assert!(rt; matches!(groups.take(rt.alloc(), &last)?, Step::Waiting));
    let again = groups.take(rt.alloc(), &last)?;
    assert!(rt; matches!(again, Step::Unused(Unused::Repeated)));
    match groups.take(rt.alloc(), &first)? {
        Step::Whole { status, text } => {
            assert_eq!(rt; status, 0x0615);
            assert!(rt; text.as_slice() == b"a=1,\r\nb=2\r\n".as_slice());
        }
        _ => assert!(rt; false),
    }
    Ok(())
}
