use edge_traits::{Failed, MemorySource, ReadFault, Source, read_whole};
use std::test::Fail;

const MOST: usize = 1_048_576;

/// A source whose reads give one octet at most.
#[derive(Drop)]
struct Sparing(MemorySource);

impl Source for Sparing {
    ghost rest = { λ s. ⟦<MemorySource as Source>⟧.rest s.0 };

    ghost faults = { λ s. ⟦<MemorySource as Source>⟧.faults s.0 };

    fn read(&mut self, into: &mut [u8]) -> Result<usize, Failed> {
        let most = into.len().min(1);
        self.0.read(&mut into[..most])
    }
}

#[test]
fn a_file_of_1048576_octets_is_whole_and_one_more_is_too_long(rt: HostRuntime) -> Result<(), Fail> {
    let alloc = rt.alloc();
    let mut octets = vec![in alloc; 7; MOST]?;
    let mut source = MemorySource::of(octets.clone()?, Vec::new(alloc));
    let whole = read_whole(alloc, &mut source, MOST)?;
    assert_eq!(rt; whole.len(), MOST);
    assert!(rt; whole.as_slice() == octets.as_slice());

    octets.push(7)?;
    let mut source = MemorySource::of(octets, Vec::new(alloc));
    assert!(rt;
        matches!(
            read_whole(alloc, &mut source, MOST),
            Err(ReadFault::TooLong)
        )
    );
    Ok(())
}

#[test]
fn three_of_five_octets_are_read_before_they_are_too_long(rt: HostRuntime) -> Result<(), Fail> {
    let alloc = rt.alloc();
    let octets = Vec::from_slice(alloc, b"abcde")?;
    let mut source = Sparing(MemorySource::of(octets, Vec::new(alloc)));
    assert!(rt; matches!(read_whole(alloc, &mut source, 2), Err(ReadFault::TooLong)));
    assert_eq!(rt;
        read_whole(alloc, &mut source, 2)?.as_slice(),
        b"de".as_slice()
    );
    Ok(())
}

#[test]
fn each_read_that_fails_ends_the_whole_read_there(rt: HostRuntime) -> Result<(), Fail> {
    let alloc = rt.alloc();
    // Three reads give an octet each, and the fourth finds the end.
    for (failing, left) in [(0, "123"), (1, "23"), (2, "3"), (3, "")] {
        let octets = Vec::from_slice(alloc, b"123")?;
        let mut source = Sparing(MemorySource::of(octets, vec![in alloc; failing]?));
        let first = read_whole(alloc, &mut source, 3);
        assert!(rt; matches!(first, Err(ReadFault::Failed)), "read {failing}");
        let rest = read_whole(alloc, &mut source, 3)?;
        assert_eq!(rt; rest.as_slice(), left.as_bytes(), "after read {failing}");
    }
    Ok(())
}
