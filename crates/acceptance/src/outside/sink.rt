use edge_traits::{MemorySink, Sink, SinkFault, write_whole};
use std::test::Fail;

/// A sink that takes at most three octets of a write.
#[derive(Drop)]
struct Sparing(MemorySink);

impl Sink for Sparing {
    ghost contents = { λ s. ⟦<MemorySink as Sink>⟧.contents s.0 };

    ghost faults = { λ s. ⟦<MemorySink as Sink>⟧.faults s.0 };

    fn write(&mut self, from: &[u8]) -> Result<usize, SinkFault> {
        let most = from.len().min(3);
        self.0.write(&from[..most])
    }
}

#[test]
fn a_sink_that_takes_little_gets_all(rt: HostRuntime) -> Result<(), Fail> {
    let mut sink = Sparing(MemorySink::of(rt.alloc(), Vec::new(rt.alloc())));
    write_whole(&mut sink, b"ntpd: host\n")?;
    assert_eq!(rt; sink.0.contents(), b"ntpd: host\n".as_slice());
    Ok(())
}

#[test]
fn a_sink_that_fails_keeps_the_front(rt: HostRuntime) -> Result<(), Fail> {
    let mut sink = Sparing(MemorySink::of(rt.alloc(), vec![in rt.alloc(); 1]?));
    assert_eq!(rt;
        write_whole(&mut sink, b"ntpd: host\n"),
        Err(SinkFault::Failed)
    );
    assert_eq!(rt; sink.0.contents(), b"ntp".as_slice());
    Ok(())
}
