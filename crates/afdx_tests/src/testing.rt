//! Plans, networks and assertions that the tests of this crate share.
use afdx_config::read_config;
use afdx_plan::Config;
use redundant_mux::Standing;
pub use std::alloc::Global;
use std::fmt::Debug;
pub use std::process::Abort;
use std::sync::Wait;
pub use std::test::Fail;
use std::thread::Threads;

/// The runtime of a test, which asserts, allocates, waits and starts threads.
pub trait Host: Abort + AllocGlobal + Wait + Threads + Sync {}

impl<R: Abort + AllocGlobal + Wait + Threads + Sync> Host for R {}

pub const BOTH: Standing = Standing { a: true, b: true };

pub const NEITHER: Standing = Standing { a: false, b: false };

pub const ONLY_B: Standing = Standing { a: false, b: true };

/// The number of a hand that never comes.
pub const NEVER: u64 = u64::MAX;

/// The gap of a link of 1 ms, in microseconds.
pub const GAP: u64 = 1_000;

/// A link: its identifier, its networks, its gap in milliseconds, its greatest frame, the number of its sub-VLs, and
/// their capacity.
pub type LinkRow = (u16, &'static str, u8, u16, u8, u16);

/// A port: its identifier, its link, its sub-VL, its partition, and its greatest message.
pub type PortRow = (u16, u16, u8, u8, u16);

/// The links and the ports of end system 1.
pub type Plan = (&'static [LinkRow], &'static [PortRow]);

/// The demonstration plan.
pub const DEMO: Plan = (&[(1, "both", 1, 1_518, 1, 2)], &[(10, 1, 0, 1, 8_192)]);

/// The demonstration plan, with room for six messages.
pub const SIX: Plan = (&[(1, "both", 1, 1_518, 1, 6)], &[(10, 1, 0, 1, 8_192)]);

/// Appends the table of a link to the text of a plan.
pub fn push_link(rt: &impl Host, text: &mut String, link: &LinkRow) {
    let (id, networks, bag, lmax, sub_vls, capacity) = *link;
    let table = writeln!(
        text,
        "[[vl]]\nid = {id}\nnetworks = '{networks}'\nlmax = {lmax}\n\
        bag_ms = {bag}\nsub_vls = {sub_vls}\ncapacity = {capacity}"
    );
    table.expect(rt, "memory");
}

/// Appends the table of a port, which sends from the UDP port 1,000 and its sub-VL.
pub fn push_port(rt: &impl Host, text: &mut String, port: &PortRow) {
    let (id, vl, sub, partition, max) = *port;
    let source = 1_000 + u16::from(sub);
    let table = writeln!(
        text,
        "[[port]]\nid = {id}\nvl = {vl}\nsub = {sub}\nmax = {max}\n\
        partition = {partition}\nsource = {source}\nkind = 'queuing'\ndestination = 2000"
    );
    table.expect(rt, "memory");
}

/// Returns the text of a plan.
pub fn text_of(rt: &impl Host, (links, ports): Plan) -> String {
    let front = "version = 2\n[end_system]\nid = 1\n";
    let mut text = front.to_string(rt.alloc()).expect(rt, "memory");
    for link in links {
        push_link(rt, &mut text, link);
    }
    for port in ports {
        push_port(rt, &mut text, port);
    }
    text
}

/// Returns the `Config` of a plan's text.
pub fn config_of(rt: &impl Host, text: String) -> Config {
    let config = read_config(rt.alloc(), text.as_bytes()).expect(rt, "a valid plan");
    drop(text);
    config
}

/// Asserts that two values are the same.
pub fn assert_same<V: PartialEq + Debug + Copy>(rt: &impl Abort, told: V, wanted: V) {
    assert_eq!(rt; told, wanted);
}
