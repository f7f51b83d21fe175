//! The call of the library that README.md shows.
use crate::testing::*;
use afdx_plan::demo_config;
use afdx_tx::{Report, open_tx};
use redundant_mux::MemNetwork;

/// Asserts that a network took one frame, with the message in it.
fn assert_hello(rt: &impl Abort, network: MemNetwork) {
    let handed = network.handed();
    assert_same(rt, handed.len(), 1);
    for entry in handed {
        assert_same(rt, entry.frame.get(42..47), Some(b"hello".as_slice()));
    }
    drop(network);
}

// Asserts that one frame was released, and that each network took it.
fn assert_sent(rt: &impl Abort, report: Report, a: MemNetwork, b: MemNetwork) {
    assert_same(rt, report.released.len(), 1);
    drop(report);
    assert_hello(rt, a);
    assert_hello(rt, b);
}

#[test]
fn one_message_from_its_port_to_both_networks(rt: HostRuntime) -> Result<(), Fail> {
    let alloc = rt.alloc();
    let (a, b) = (MemNetwork::new(alloc), MemNetwork::new(alloc));
    let opened = open_tx(alloc, demo_config(alloc)?, a, b).ok();
    let (mut emitter, mut ports, mut monitor) = opened.expect(&rt, "memory");
    for port in ports.iter_mut() {
        assert!(rt; port.send_slice(b"hello").is_ok());
    }
    let report = emitter.poll(0).expect(&rt, "a network that is up");
    emitter.publish(&rt);
    assert_eq!(rt; monitor.read(&rt, 0).frames, 1);
    let (a, b) = emitter.into_networks();
    assert_sent(&rt, report, a, b);
    drop((ports, monitor));
    Ok(())
}
