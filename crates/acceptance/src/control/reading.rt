use mode6_frame::{FrameFault, read};

#[test]
fn a_request_for_stratum_is_read(rt: HostRuntime) {
    let octets = *b"\x16\x02\x00\x01\x00\x00\x00\x00\x00\x00\x00\x07stratum\x00";
    match read(&octets) {
        Ok(frame) => {
            assert_eq!(rt; (frame.leap, frame.version, frame.opcode), (0, 2, 2));
            assert_eq!(rt;
                (frame.response, frame.error, frame.more),
                (false, false, false)
            );
            assert_eq!(rt; (frame.sequence, frame.status), (1, 0));
            assert_eq!(rt; (frame.assoc, frame.offset), (0, 0));
            assert!(rt; frame.body == b"stratum".as_slice(), "the body");
            assert!(rt; frame.rest == [0].as_slice(), "the rest");
        }
        Err(_) => assert!(rt; false, "the request was refused"),
    }
}

#[test]
fn a_fragment_about_an_association_is_read(rt: HostRuntime) {
    // Response and more bits, sequence 258, status 772, association 1286, offset 468.
    let octets = *b"\x26\xaa\x01\x02\x03\x04\x05\x06\x01\xd4\x00\x02ok";
    match read(&octets) {
        Ok(frame) => {
            assert_eq!(rt; (frame.leap, frame.version, frame.opcode), (0, 4, 10));
            assert_eq!(rt;
                (frame.response, frame.error, frame.more),
                (true, false, true)
            );
            assert_eq!(rt; (frame.sequence, frame.status), (0x0102, 0x0304));
            assert_eq!(rt; (frame.assoc, frame.offset), (0x0506, 468));
            assert!(rt; frame.body == b"ok".as_slice(), "the body");
            assert!(rt; frame.rest.is_empty(), "the rest");
        }
        Err(_) => assert!(rt; false, "the fragment was refused"),
    }
}

#[test]
fn length_is_judged_before_version_mode_and_count(rt: HostRuntime) {
    let cases = [
        (
            "11 octets of version 0 and mode 0",
            0x00,
            [0, 0],
            11,
            FrameFault::Short,
        ),
        ("version 0", 0x06, [0, 0], 12, FrameFault::BadVersion),
        (
            "version 5 and mode 7",
            0x2f,
            [0, 0],
            12,
            FrameFault::BadVersion,
        ),
        (
            "mode 3 and a count of 9",
            0x23,
            [0, 9],
            20,
            FrameFault::BadMode,
        ),
        ("mode 7", 0x17, [0, 0], 12, FrameFault::BadMode),
        (
            "a count of 9 before 8 octets",
            0x16,
            [0, 9],
            20,
            FrameFault::BadCount,
        ),
        (
            "a count of 256 before 8 octets",
            0x16,
            [1, 0],
            20,
            FrameFault::BadCount,
        ),
        (
            "a count of 469 before 488 octets",
            0x16,
            [1, 0xd5],
            500,
            FrameFault::BadCount,
        ),
    ];
    for (what, first, count, len, fault) in cases {
        let mut octets = [0; 500];
        octets[0] = first;
        octets[10] = count[0];
        octets[11] = count[1];
        assert!(rt; len <= 500);
        assert_eq!(rt; read(&octets[..len]).err(), Some(fault), "{what}");
    }
}

#[test]
fn a_body_of_468_octets_is_read(rt: HostRuntime) {
    let mut octets = [7; 500];
    octets[..12].copy_from_slice(b"\x16\x82\x00\x01\x00\x00\x00\x00\x00\x00\x01\xd4");
    let lens = read(&octets).map(|f| (f.body.len(), f.rest.len()));
    assert_eq!(rt; lens, Ok((468, 20)));
}
