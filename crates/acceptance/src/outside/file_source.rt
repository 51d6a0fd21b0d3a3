use edge_traits::{Failed, FileSource, Source};
use std::io;
use std::io::{ErrorKind, Read};

/// A reader that writes on all of its slice. One octet counts at first, and then it fails.
#[derive(Drop)]
struct Careless {
    has_read: bool,
}

impl Read for Careless {
    fn read(&mut self, buf: &mut [u8]) -> io::Result<usize> {
        buf.fill(b'!');
        if self.has_read || buf.is_empty() {
            return Err(io::Error::from(ErrorKind::Unsupported));
        }
        self.has_read = true;
        Ok(1)
    }
}

fn moves_to_a_thread<T: Send>(_source: &T) {}

#[test]
fn what_was_not_read_stays(rt: HostRuntime) {
    let mut source = FileSource::of(Careless { has_read: false });
    moves_to_a_thread(&source);
    let mut into = *b"---";
    assert_eq!(rt; source.read(&mut into), Ok(1));
    assert_eq!(rt; into, *b"!--");
    assert_eq!(rt; source.read(&mut into), Err(Failed));
    assert_eq!(rt; into, *b"!--");
}
