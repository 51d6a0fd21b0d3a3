use mode6_frame::{Frame, Head, error_gram, write};

const REQUEST: Frame<'static> = Frame {
    leap: 0,
    version: 2,
    response: false,
    error: false,
    more: false,
    opcode: 2,
    sequence: 1,
    status: 0,
    assoc: 0,
    offset: 0,
    body: b"stratum",
    rest: b"not written",
};

#[test]
fn a_request_is_padded_with_zeros(rt: HostRuntime) {
    let octets = write(&REQUEST);
    let wanted = b"\x16\x02\x00\x01\x00\x00\x00\x00\x00\x00\x00\x07stratum\x00".as_slice();
    assert!(rt; octets.as_slice() == wanted);
}

#[test]
fn an_answer_of_twelve_octets_needs_no_padding(rt: HostRuntime) {
    let answer = Frame {
        response: true,
        status: 0xc011,
        body: b"stratum=16\r\n",
        ..REQUEST
    };
    let octets = write(&answer);
    let wanted = b"\x16\x82\x00\x01\xc0\x11\x00\x00\x00\x00\x00\x0cstratum=16\r\n".as_slice();
    assert!(rt; octets.as_slice() == wanted);
}

#[test]
fn errors_keep_operation_sequence_and_association(rt: HostRuntime) {
    let cases = [
        (
            "unknown name",
            2,
            0,
            5,
            *b"\x16\xc2\x00\x01\x05\x00\x00\x00\x00\x00\x00\x00",
        ),
        (
            "unknown association",
            2,
            9,
            4,
            *b"\x16\xc2\x00\x01\x04\x00\x00\x09\x00\x00\x00\x00",
        ),
        (
            "operation 3",
            3,
            0,
            3,
            *b"\x16\xc3\x00\x01\x03\x00\x00\x00\x00\x00\x00\x00",
        ),
    ];
    for (what, opcode, assoc, code, wanted) in cases {
        let head = Head {
            version: 2,
            opcode,
            sequence: 1,
            status: 0xc011,
            assoc,
        };
        assert!(rt; head.opcode <= 31);
        assert!(rt;
            error_gram(&head, code).as_slice() == wanted.as_slice(),
            "{what}"
        );
    }
}
