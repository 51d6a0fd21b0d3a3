use mode6_frame::{error_code, error_status_word, read_peer_status, read_system_status};

#[test]
fn the_words_of_a_system_and_a_peer_go_both_ways(rt: HostRuntime) {
    // Not synchronized, no source, one event of code 1.
    let opening = read_system_status(0xc011);
    assert_eq!(rt; (opening.leap, opening.source), (3, 0));
    assert_eq!(rt; (opening.events, opening.code), (1, 1));
    // Configured and reachable, the system peer, 15 events, the last of code 10.
    let chosen = read_peer_status(0x96fa);
    assert_eq!(rt; (chosen.configured, chosen.keyed), (true, false));
    assert_eq!(rt; (chosen.reachable, chosen.selection), (true, 6));
    assert_eq!(rt; (chosen.events, chosen.code), (15, 10));
    assert_eq!(rt; error_code(error_status_word(5)), 5);
}
