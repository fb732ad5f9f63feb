// The longest peer, and one byte more.
use rack_types::Peer;

#[test]
fn keeps_45_bytes(rt: HostRuntime) {
    let longest = "0000:0000:0000:0000:0000:ffff:255.255.255.255".as_bytes();
    match Peer::new(longest) {
        Some(peer) => assert_eq!(rt; peer.get(), longest),
        None => assert!(rt; false),
    }
    assert!(rt; Peer::new(b"0000:0000:0000:0000:0000:ffff:255.255.255.255%").is_none());
}
