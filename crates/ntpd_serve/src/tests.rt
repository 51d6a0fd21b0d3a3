//! Whole runs of `ntpd`, over a host in memory and over a real socket.
ghost use Rattle.std.specs.Prelude.{◌≤◌, All, IfOk, length};
ghost use Rattle.edge_traits.specs.Memory.{IsNewClock, IsNewPort};

use crate::command::{Ended, ntpd};
use crate::once::serve_once;
use edge_traits::{
    Event, Incoming, MAX_OCTETS, MemoryClock, MemoryFile, MemoryHost, MemoryPort, MemorySink,
    MemorySource, Name, Octets, OpenGate, Port, Salt, Status, Taken, UdpPort,
};
use fixed_time::Ntp64;
use mac_keys::{KeyTable, read_keys};
use net_addr::{Addr, Ip};
use responders::Session;
use shared_book::Common;
use std::alloc::{AllocError, Global};
use std::process::Abort;
use std::sync::Wait;
use std::test::Fail;
use std::thread::Threads;

/// The command of each run of `once`, but for those of other words.
const ONCE: &str = "once 127.0.0.1:123";

/// The command of each run of `serve`.
const SERVE: &str = "serve conf";

/// 1 January 1970 (RFC 5905, figure 4).
const ORIGIN: Ntp64 = Ntp64(0x83aa_7e80_0000_0000);

const SECOND: u64 = 1 << 32;

const CLIENT: Addr = Addr {
    ip: Ip::V4([10, 0, 0, 1]),
    port: 40000,
};

/// A client's request: version 4, poll 6, precision -23, transmit time ORIGIN.
const REQUEST: [u8; 48] = *b"\x23\x00\x06\xe9\
    \x00\x00\x00\x00\x00\x00\x00\x00\x00\x00\x00\x00\x00\x00\x00\x00\x00\x00\x00\x00\x00\x00\
    \x00\x00\x00\x00\x00\x00\x00\x00\x00\x00\x00\x00\x00\x00\x83\xaa\x7e\x80\x00\x00\x00\x00";

/// The reply to it of a server that knows no time yet, one second after ORIGIN.
const REPLY: [u8; 48] = *b"\xe4\x00\x06\xec\x00\x00\x00\x00\x00\x10\x00\x00INIT\
    \x00\x00\x00\x00\x00\x00\x00\x00\x83\xaa\x7e\x80\x00\x00\x00\x00\
    \x83\xaa\x7e\x81\x00\x00\x00\x00\x83\xaa\x7e\x81\x00\x00\x00\x00";

/// The reply to it of a server of its own clock at stratum 2, whose dispersion after one second at
/// 15 ppm is less than one unit of 2^-16 s, rounded up.
const LOCAL_REPLY: [u8; 48] = *b"\x24\x02\x06\xec\x00\x00\x00\x00\x00\x00\x00\x01\x7f\x00\x00\x01\
    \x00\x00\x00\x00\x00\x00\x00\x00\x83\xaa\x7e\x80\x00\x00\x00\x00\
    \x83\xaa\x7e\x81\x00\x00\x00\x00\x83\xaa\x7e\x81\x00\x00\x00\x00";

/// The MAC of REQUEST with the key 7 of the secret `secret`, for MD5, by Python's hashlib.
const MAC: [u8; 20] = *b"\x00\x00\x00\x07\
    \x76\x8a\x48\x46\xbd\x50\xba\x51\xeb\x05\xb0\xfa\xe4\x23\xe4\xba";

/// A crypto-NAK (RFC 5905, section 9.2).
const NAK: [u8; 4] = [0; 4];

/// A control request: read the variable `stratum`, version 2, sequence 1.
const READ_STRATUM: [u8; 20] = *b"\x16\x02\x00\x01\x00\x00\x00\x00\x00\x00\x00\x07stratum\x00";

/// The answer to it of a server that knows no time yet.
const STRATUM: [u8; 24] = *b"\x16\x82\x00\x01\xc0\x11\x00\x00\x00\x00\x00\x0cstratum=16\r\n";

/// A control request: read the status of the system.
const READ_STATUS: [u8; 12] = *b"\x16\x01\x00\x01\x00\x00\x00\x00\x00\x00\x00\x00";

/// The answer to it of a server that knows no time yet and has no peers.
const STATUS: [u8; 12] = *b"\x16\x81\x00\x01\xc0\x11\x00\x00\x00\x00\x00\x00";

fn octets_of(bytes: &[u8]) -> Octets {
    let mut octets = Octets::new();
    append(&mut octets, bytes);
    octets
}

/// Appends these octets, as many as there is room for.
fn append(octets: &mut Octets, bytes: &[u8]) {
    for byte in bytes {
        if octets.len() < MAX_OCTETS {
            octets.push(*byte);
        }
    }
}

/// A header with a field and a MAC behind it.
fn behind(header: &[u8], field: &[u8], mac: &[u8]) -> Octets {
    let mut octets = octets_of(header);
    append(&mut octets, field);
    append(&mut octets, mac);
    octets
}

/// The words of a text, parted by spaces.
fn words_of(alloc: Global, text: &str) -> Result<Vec<String>, AllocError> {
    let mut words = Vec::new(alloc);
    for word in text.split_whitespace() {
        words.push(String::from_str(alloc, word)?)?;
    }
    Ok(words)
}

/// What a run leaves but for what it printed, told in short: so a test holds no whole session.
#[derive(Drop)]
struct Left {
    status: Status,
    /// What the port of `once` gave, end to end.
    single: Option<Octets>,
    session: Option<Workers>,
    is_rehearsed: bool,
    has_source: bool,
}

/// How many workers a session hands back, and whether each gave LOCAL_REPLY in one act.
#[derive(Drop)]
struct Workers {
    count: usize,
    have_answered: bool,
}

/// A run: what it left, and what it printed.
#[derive(Drop)]
struct Run {
    left: Left,
    out: MemorySink,
}

/// What a run left, in short.
fn left_of(ended: &Ended<MemoryPort, MemoryClock, MemorySource>) -> Left {
    Left {
        status: ended.status,
        single: match &ended.single {
            Some(single) => Some(given(single.port.events())),
            None => None,
        },
        session: match &ended.session {
            Some(session) => Some(Workers {
                count: session.workers.len(),
                have_answered: has_acts(session, &LOCAL_REPLY),
            }),
            None => None,
        },
        is_rehearsed: ended.rehearsed.is_some(),
        has_source: ended.source.is_some(),
    }
}

/// What a run of these words over this host leaves, which prints there.
fn left_by<R: Threads + Wait + Sync>(
    rt: &R,
    alloc: Global,
    words: &[String],
    host: &mut MemoryHost,
    out: &mut MemorySink,
) -> Left {
    let ended = ntpd(rt, alloc, words, host, &OpenGate, out);
    left_of(&ended)
}

/// A run of these words over this host, whose sink fails at these writes.
fn run_on<R: Threads + Wait + Sync>(
    rt: &R,
    alloc: Global,
    text: &str,
    mut host: MemoryHost,
    failing_writes: Vec<u64>,
) -> Result<Run, AllocError> {
    let mut out = MemorySink::of(alloc, failing_writes);
    let words = words_of(alloc, text)?;
    let left = left_by(rt, alloc, words.as_slice(), &mut host, &mut out);
    Ok(Run { left, out })
}

/// A clock that reads one second.
fn clock(alloc: Global) -> Result<MemoryClock, AllocError>
    ensures { IfOk result IsNewClock }
{
    Ok(MemoryClock::of(vec![in alloc; SECOND]?))
}

/// A host of these files and ports, with three clocks.
fn host_of(
    alloc: Global,
    files: Vec<MemoryFile>,
    ports: Vec<MemoryPort>,
) -> Result<MemoryHost, AllocError>
    requires { All IsNewPort ports.items }
{
    let mut clocks = Vec::new(alloc);
    clocks.push(clock(alloc)?)?;
    clocks.push(clock(alloc)?)?;
    clocks.push(clock(alloc)?)?;
    Ok(MemoryHost::of(
        alloc,
        files,
        ports,
        clocks,
        ORIGIN,
        Salt([0; 16]),
        Vec::new(alloc),
    ))
}

/// A run of these words over a host whose port finds these datagrams, whose gives with these numbers
/// fail, and whose sink fails at these writes.
fn run_over<R: Threads + Wait + Sync>(
    rt: &R,
    alloc: Global,
    text: &str,
    incoming: Vec<Incoming>,
    failing_gives: Vec<u64>,
    failing_writes: Vec<u64>,
) -> Result<Run, AllocError> {
    let mut ports = Vec::new(alloc);
    ports.push(MemoryPort::of(alloc, incoming, failing_gives))?;
    let host = host_of(alloc, Vec::new(alloc), ports)?;
    run_on(rt, alloc, text, host, failing_writes)
}

/// One datagram from the client.
fn one(alloc: Global, bytes: &[u8]) -> Result<Vec<Incoming>, AllocError> {
    let mut incoming = Vec::new(alloc);
    incoming.push(Incoming::Datagram(CLIENT, octets_of(bytes)))?;
    Ok(incoming)
}

/// The octets of all that a port gave, end to end.
fn given(events: &[Event]) -> Octets {
    let mut all = Octets::new();
    for event in events {
        if let Event::Sent(_, octets) = event {
            append(&mut all, octets.as_slice());
        }
    }
    all
}

/// Whether a run ended so, printed this, and gave these octets.
fn is_so(run: &Run, status: u8, printed: &str, gave: &[u8]) -> bool {
    run.left.status == Status(status)
        && run.out.contents() == printed.as_bytes()
        && match &run.left.single {
            Some(given) => given.as_slice() == gave,
            None => gave.is_empty(),
        }
}

/// Whether `once` prints this and gives these octets where its port finds this datagram.
fn serves(
    rt: &(impl Threads + Wait + Sync),
    alloc: Global,
    datagram: &[u8],
    printed: &str,
    gave: &[u8],
) -> Result<bool, AllocError> {
    let none = Vec::new(alloc);
    let incoming = one(alloc, datagram)?;
    let run = run_over(rt, alloc, ONCE, incoming, none, Vec::new(alloc))?;
    Ok(is_so(&run, 0, printed, gave))
}

#[test]
fn a_request_gets_the_reply_of_a_server_that_knows_no_time(rt: HostRuntime) -> Result<(), Fail> {
    assert!(rt; serves(&rt, rt.alloc(), &REQUEST, "answered 1\n", &REPLY)?);
    Ok(())
}

#[test]
fn once_knows_no_keys(rt: HostRuntime) -> Result<(), Fail> {
    let request = behind(&REQUEST, b"", &MAC);
    let reply = behind(&REPLY, b"", &NAK);
    let is_refused = serves(
        &rt,
        rt.alloc(),
        request.as_slice(),
        "answered 1\n",
        reply.as_slice(),
    )?;
    assert!(rt; is_refused);
    Ok(())
}

/// Whether `once` gives this answer where its port finds this control request.
fn answers(
    rt: &(impl Threads + Wait + Sync),
    alloc: Global,
    request: &[u8],
    answer: &[u8],
) -> Result<bool, AllocError> {
    serves(rt, alloc, request, "answered 1\n", answer)
}

#[test]
fn a_control_request_gets_its_answer(rt: HostRuntime) -> Result<(), Fail> {
    assert!(rt; answers(&rt, rt.alloc(), &READ_STRATUM, &STRATUM)?);
    Ok(())
}

/// A text so many times, in front of what ends it.
fn times(front: &[u8], count: u32, text: &[u8], end: &[u8]) -> Octets {
    let mut octets = octets_of(front);
    for _ in 0..count {
        append(&mut octets, text);
    }
    append(&mut octets, end);
    octets
}

// `version="ntpd profile 1"` stands 17 times in the first datagram, of 468 octets, and 3 times in
// the second, of 103.
#[test]
fn a_long_answer_takes_two_datagrams(rt: HostRuntime) -> Result<(), Fail> {
    let request = times(
        b"\x16\x02\x00\x02\x00\x00\x00\x00\x00\x00\x00\x9f",
        19,
        b"version,",
        b"version\x00",
    );
    let first = times(
        b"\x16\xa2\x00\x02\xc0\x11\x00\x00\x00\x00\x01\xd4resp=0x0000000000000000",
        17,
        b", version=\"ntpd profile 1\"",
        b",\r\n",
    );
    let second = times(
        b"\x16\x82\x00\x02\xc0\x11\x00\x00\x01\xd4\x00\x67resp=0x0000000000000000",
        3,
        b", version=\"ntpd profile 1\"",
        b"\r\n\x00",
    );
    let answer = behind(first.as_slice(), b"", second.as_slice());
    let is_given = serves(
        &rt,
        rt.alloc(),
        request.as_slice(),
        "answered 2\n",
        answer.as_slice(),
    )?;
    assert!(rt; is_given);
    Ok(())
}

/// Whether these words are no command.
fn is_no_command(
    rt: &(impl Threads + Wait + Sync),
    alloc: Global,
    words: &str,
) -> Result<bool, AllocError> {
    let none = Vec::new(alloc);
    let incoming = one(alloc, &REQUEST)?;
    let run = run_over(rt, alloc, words, incoming, none, Vec::new(alloc))?;
    Ok(is_so(&run, 1, "ntpd: words\n", b"") && run.left.single.is_none())
}

#[test]
fn words_that_are_no_command_are_refused(rt: HostRuntime) -> Result<(), Fail> {
    let texts = "|once|once nowhere|once 127.0.0.1|once ::1|once [::1]|once ::1:123\
        |once 127.0.0.1:0123|once 127.0.0.1:65536|once 127.0.0.1:123 twice|serve\
        |serve ntp.conf twice|Once 127.0.0.1:123|Serve ntp.conf|rehearse|rehearse 007|rehearse -1\
        |rehearse 18446744073709551616|rehearse 7 twice";
    for words in texts.split('|') {
        assert!(rt; is_no_command(&rt, rt.alloc(), words)?, "{words}");
    }
    Ok(())
}

#[test]
fn a_rehearsal_touches_no_host(rt: HostRuntime) -> Result<(), Fail> {
    let alloc = rt.alloc();
    let incoming = one(alloc, &REQUEST)?;
    let failing = vec![in alloc; 0]?;
    let run = run_over(&rt, alloc, "rehearse 7", incoming, Vec::new(alloc), failing)?;
    assert!(rt; is_so(&run, 8, "", b"") && run.left.is_rehearsed);
    Ok(())
}

#[test]
fn an_ipv6_address_is_served_in_each_of_its_texts(rt: HostRuntime) -> Result<(), Fail> {
    let alloc = rt.alloc();
    for words in "once [::1]:123|once [0:0:0:0:0:0:0:1]:123|once [::0.0.0.1]:123".split('|') {
        let none = Vec::new(alloc);
        let incoming = one(alloc, &REQUEST)?;
        let run = run_over(&rt, alloc, words, incoming, none, Vec::new(alloc))?;
        assert!(rt; is_so(&run, 0, "answered 1\n", &REPLY), "{words}");
    }
    Ok(())
}

/// So many takes that find nothing, and then a request.
fn late(alloc: Global, quiets: u32) -> Result<Vec<Incoming>, AllocError> {
    let mut incoming = Vec::new(alloc);
    for _ in 0..quiets {
        incoming.push(Incoming::Quiet)?;
    }
    incoming.push(Incoming::Datagram(CLIENT, octets_of(&REQUEST)))?;
    Ok(incoming)
}

#[test]
fn a_run_waits_for_59_silences_and_not_for_60(rt: HostRuntime) -> Result<(), Fail> {
    let alloc = rt.alloc();
    let none = Vec::new(alloc);
    let in_time = run_over(&rt, alloc, ONCE, late(alloc, 59)?, none, Vec::new(alloc))?;
    assert!(rt; is_so(&in_time, 0, "answered 1\n", &REPLY));
    let none = Vec::new(alloc);
    let too_late = run_over(&rt, alloc, ONCE, late(alloc, 60)?, none, Vec::new(alloc))?;
    assert!(rt; is_so(&too_late, 6, "ntpd: quiet\n", b""));
    Ok(())
}

#[test]
fn faults_of_port_and_sink_have_their_status(rt: HostRuntime) -> Result<(), Fail> {
    let alloc = rt.alloc();
    let (no_give, no_write) = (Vec::new(alloc), Vec::new(alloc));
    let closed = run_over(&rt, alloc, ONCE, Vec::new(alloc), no_give, no_write)?;
    assert!(rt; is_so(&closed, 7, "ntpd: closed\n", b""));

    let (no_give, no_write) = (Vec::new(alloc), Vec::new(alloc));
    let failing = vec![in alloc; Incoming::Fail]?;
    let untaken = run_over(&rt, alloc, ONCE, failing, no_give, no_write)?;
    assert!(rt; is_so(&untaken, 4, "ntpd: port\n", b""));

    let first_give = vec![in alloc; 0u64]?;
    let unsent = run_over(
        &rt,
        alloc,
        ONCE,
        one(alloc, &REQUEST)?,
        first_give,
        Vec::new(alloc),
    )?;
    assert!(rt; is_so(&unsent, 4, "ntpd: port\n", b""));

    let first_write = vec![in alloc; 0u64]?;
    let request = one(alloc, &REQUEST)?;
    let unwritten = run_over(&rt, alloc, ONCE, request, Vec::new(alloc), first_write)?;
    assert!(rt; is_so(&unwritten, 8, "", &REPLY));
    Ok(())
}

#[test]
fn a_host_that_gives_no_port_has_its_status(rt: HostRuntime) -> Result<(), Fail> {
    let alloc = rt.alloc();
    let failing = vec![in alloc; 0u64]?;
    let host = MemoryHost::of(
        alloc,
        Vec::new(alloc),
        Vec::new(alloc),
        Vec::new(alloc),
        ORIGIN,
        Salt([0; 16]),
        failing,
    );
    let run = run_on(&rt, alloc, ONCE, host, Vec::new(alloc))?;
    assert!(rt; is_so(&run, 3, "ntpd: host\n", b""));
    Ok(())
}

/// A file of this name with this text, whose reads with these numbers fail.
fn file(
    alloc: Global,
    name: &str,
    text: &str,
    failing: Vec<u64>,
) -> Result<MemoryFile, AllocError> {
    Ok(MemoryFile {
        name: Name::of(vec_of(alloc, name.as_bytes())?),
        octets: vec_of(alloc, text.as_bytes())?,
        failing,
    })
}

/// These octets.
fn vec_of(alloc: Global, bytes: &[u8]) -> Result<Vec<u8>, AllocError> {
    let mut octets = Vec::new(alloc);
    octets.extend_from_slice(bytes)?;
    Ok(octets)
}

/// Whether a session handed back one act of each worker, by which this was given.
fn has_acts(session: &Session<MemoryPort, MemoryClock>, gave: &[u8]) -> bool {
    for who in 0..session.workers.len() {
        let worker = session.workers.get(who);
        if worker.acts().len() != 1 || given(worker.port().events()).as_slice() != gave {
            return false;
        }
    }
    true
}

// Each worker's port finds one request and is then closed; the pilot's port is closed at once, before
// a tick is due. So the history has the two requests alone, which are of one client.
#[test]
fn serve_serves_by_a_worker_at_each_address(rt: HostRuntime) -> Result<(), Fail> {
    let alloc = rt.alloc();
    let conf = "listen 127.0.0.1:123\nlisten [::1]:123\nlocal 2\n";
    let files = vec![in alloc; file(alloc, "conf", conf, Vec::new(alloc))?]?;
    let mut ports = Vec::new(alloc);
    ports.push(MemoryPort::of(alloc, one(alloc, &REQUEST)?, Vec::new(alloc)))?;
    ports.push(MemoryPort::of(alloc, one(alloc, &REQUEST)?, Vec::new(alloc)))?;
    let host = host_of(alloc, files, ports)?;
    let run = run_on(&rt, alloc, SERVE, host, Vec::new(alloc))?;
    let line = "session entries 2 clients 1 epoch 0 left 0\n";
    assert!(rt; is_so(&run, 0, line, b""));
    let workers = run.left.session.as_ref().ok_or("a session")?;
    assert!(rt; workers.count == 2 && workers.have_answered);
    Ok(())
}

// The stop is the one entry of the history.
#[test]
fn a_worker_whose_port_fails_ends_the_session(rt: HostRuntime) -> Result<(), Fail> {
    let alloc = rt.alloc();
    let files = vec![in alloc; file(alloc, "conf", "", Vec::new(alloc))?]?;
    let mut ports = Vec::new(alloc);
    let failing = vec![in alloc; Incoming::Fail]?;
    ports.push(MemoryPort::of(alloc, failing, Vec::new(alloc)))?;
    let host = host_of(alloc, files, ports)?;
    let run = run_on(&rt, alloc, SERVE, host, Vec::new(alloc))?;
    let lines = "session entries 1 clients 0 epoch 0 left 0\nntpd: port\n";
    assert!(rt; is_so(&run, 4, lines, b"") && run.left.session.is_some());
    Ok(())
}

/// The run of `serve conf` over a file of this name and text, and a key file.
fn run_of<R: Threads + Wait + Sync>(
    rt: &R,
    alloc: Global,
    conf: MemoryFile,
    keys: &str,
) -> Result<Run, AllocError> {
    let mut files = Vec::new(alloc);
    files.push(conf)?;
    files.push(file(alloc, "keys", keys, Vec::new(alloc))?)?;
    let host = host_of(alloc, files, Vec::new(alloc))?;
    run_on(rt, alloc, SERVE, host, Vec::new(alloc))
}

#[test]
fn a_refused_file_is_told_by_its_line_and_word(rt: HostRuntime) -> Result<(), Fail> {
    let alloc = rt.alloc();
    let rows = [
        (
            "conf",
            "local 2\nlisten [::1]:123\nrestrict 10.0.0.0/33\n",
            2,
            "ntpd: conf line 3 word 2\n",
        ),
        ("conf", "keys keys\n", 2, "ntpd: keys line 1 word 3\n"),
        ("other", "local 2\n", 3, "ntpd: host\n"),
    ];
    for (name, text, status, printed) in rows {
        let conf = file(alloc, name, text, Vec::new(alloc))?;
        let run = run_of(&rt, alloc, conf, "7 MD5\n")?;
        assert!(rt;
            is_so(&run, status, printed, b"") && run.left.session.is_none(),
            "{printed}"
        );
        assert!(rt; !run.left.has_source);
    }
    Ok(())
}

#[test]
fn a_source_that_fails_comes_back(rt: HostRuntime) -> Result<(), Fail> {
    let alloc = rt.alloc();
    let conf = file(alloc, "conf", "local 2\n", vec![in alloc; 0u64]?)?;
    let run = run_of(&rt, alloc, conf, "")?;
    assert!(rt; is_so(&run, 3, "ntpd: host\n", b"") && run.left.has_source);
    Ok(())
}

/// Whether a server at this address gives this answer to this request, over two sockets.
fn is_answered(
    alloc: Global,
    server: &mut UdpPort,
    client: &mut UdpPort,
    common: &Common,
    at: &Addr,
    request: &[u8],
    answer: &[u8],
) -> Result<bool, AllocError>
    requires { length request.now ≤ 48 }
{
    let is_sent = client.give(at, request).is_ok();
    let mut clock = MemoryClock::of(vec![in alloc; SECOND]?);
    let mut out = MemorySink::of(alloc, Vec::new(alloc));
    let status = serve_once(alloc, server, &mut clock, common, &mut out);
    let mut taken = Octets::new();
    let is_taken = client.take(&mut taken) == Ok(Taken::Datagram(*at));
    Ok(is_sent && status == Status(0) && is_taken && taken.as_slice() == answer)
}

/// Serves a request for the time and control requests over two sockets of this machine.
fn check_sockets(
    rt: &impl Abort,
    alloc: Global,
    server: &mut UdpPort,
    client: &mut UdpPort,
) -> Result<(), Fail> {
    let at = server.local().ok_or("the server's own address")?;
    let common = Common {
        keys: KeyTable::new(alloc),
        salt: Salt([0; 16]),
        origin: ORIGIN,
    };
    assert!(rt; is_answered(alloc, server, client, &common, &at, &REQUEST, &REPLY)?);
    assert!(rt; is_answered(alloc, server, client, &common, &at, &READ_STRATUM, &STRATUM)?);
    Ok(())
}

#[test]
fn requests_on_a_real_socket_are_answered(rt: HostRuntime) -> Result<(), Fail> {
    let any = Addr {
        ip: Ip::V4([127, 0, 0, 1]),
        port: 0,
    };
    let mut server = UdpPort::bind(&rt, &any)?;
    let mut client = UdpPort::bind(&rt, &any)?;
    check_sockets(&rt, rt.alloc(), &mut server, &mut client)
}

// Where the system has no IPv6, there is nothing to try.
#[test]
fn requests_on_a_real_socket_of_ipv6_are_answered(rt: HostRuntime) -> Result<(), Fail> {
    let any = Addr {
        ip: Ip::V6([0, 0, 0, 0, 0, 0, 0, 0, 0, 0, 0, 0, 0, 0, 0, 1]),
        port: 0,
    };
    let Ok(mut server) = UdpPort::bind(&rt, &any) else {
        return Ok(());
    };
    let mut client = UdpPort::bind(&rt, &any)?;
    check_sockets(&rt, rt.alloc(), &mut server, &mut client)
}
