use edge_traits::{MAX_OCTETS, Octets};

#[test]
fn octets_hold_2048(rt: HostRuntime) {
    let mut octets = Octets::new();
    octets.put(&[7; 2047]);
    octets.push(9);
    let copy = octets.copy();
    octets.clear();
    assert_eq!(rt; octets.len(), 0);
    assert_eq!(rt; copy.len(), MAX_OCTETS);
    assert_eq!(rt; &copy.as_slice()[2046..], [7, 9].as_slice());
}
