use clock_filter::STAGES;
use fixed_time::{MAX_DISPERSION, Ntp64, Span};
use net_addr::{Addr, Ip};
use sys_vars::PeerView;

/// A peer without a key that was never heard of, and has had no event.
pub fn unheard() -> PeerView {
    PeerView {
        assoc: 1,
        addr: Addr {
            ip: Ip::V4([192, 0, 2, 1]),
            port: 123,
        },
        key: 0,
        hpoll: 6,
        ppoll: 0,
        pmode: 0,
        leap: 3,
        stratum: 16,
        precision: 0,
        root_delay: 0,
        root_disp: 0,
        refid: *b"INIT",
        reference: Ntp64(0),
        received: Ntp64(0),
        reach: 0,
        offset: Span(0),
        delay: 0,
        disp: MAX_DISPERSION,
        jitter: 0,
        stages: [None; STAGES],
        auth_ok: false,
        selection: 0,
        events: 0,
        code: 0,
    }
}
