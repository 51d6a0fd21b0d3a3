use edge_traits::{Sink, StandardOutput};
use std::test::Fail;

#[test]
fn nothing_is_written_of_no_octets(rt: HostRuntime) -> Result<(), Fail> {
    let mut output = StandardOutput::new(rt);
    assert_eq!(rt; output.write(b"")?, 0);
    Ok(())
}
