//! The interfaces of a section, and the times of their packets.
ghost use Rattle.std.specs.Prelude.{◌≡◌, ◌+◌, ◌*◌, ◌/◌, ◌^◌, ◌≤◌, length, slice_get, IfOk};
ghost use Rattle.std.specs.List.{list_any};
ghost use Rattle.std.specs.Option.{is_some};
ghost use Rattle.capture.specs.Capture.{fill};
ghost use Rattle.capture.specs.Interfaces.{fcs_of, fcs_in, fcs_on, plain, name_of as name_network, with_option, first_option, with_options, per_second, time_of, known, network_named, network_of as network_at};

use crate::losses::Losses;
use crate::order::Order;
use crate::stop::Fault;
use crate::write::fill_of;
use afdx_frame::Net;

// The nanoseconds of a second.
const SECOND: u128 = 1_000_000_000;

// The codes of options.
pub(crate) const END: u16 = 0;

const NAME: u16 = 2;

const RESOLUTION: u16 = 9;

const CHECK_LENGTH: u16 = 13;

const OFFSET: u16 = 14;

/// The most interfaces of a section.
pub const MOST_INTERFACES: usize = 256;

/// An interface that a capture describes.
#[derive(Clone, Copy, Debug, Default, PartialEq, Eq)]
pub struct Interface {
    /// The network after which the interface is named, if its name is A or B.
    pub name: Option<Net>,
    /// The most bytes that are captured of a packet; 0 for no limit.
    pub limit: u32,
    /// The resolution of times, as `if_tsresol` has it.
    pub resolution: u8,
    /// The seconds to be added to times, in two's complement.
    pub offset: u64,
    /// The packets end with their check sequence, or they don't. None if the capture doesn't say it.
    pub fcs: Option<bool>,
    /// The packets that were lost, as far as the recorder told.
    pub losses: Losses,
}

/// The front of an option: its code, and the length of its value.
#[derive(Clone, Copy, Debug, PartialEq, Eq)]
pub(crate) struct OptionFront {
    pub(crate) code: u16,
    pub(crate) len: u16,
}

/// Returns the network with this name, `A` or `B`.
fn name_of(name: &[u8]) -> Option<Net>
    ensures { result ≡ name_network name.now }
{
    match name {
        [b'A'] => Some(Net::A),
        [b'B'] => Some(Net::B),
        _ => None,
    }
}

/// Returns whether packets end with a check sequence of this length in bytes. None of a length that Ethernet's hasn't.
fn fcs_of(len: u8) -> Option<bool>
    ensures { result ≡ fcs_of len }
{
    match len {
        0 => Some(false),
        4 => Some(true),
        _ => None,
    }
}

/// Returns whether packets end with their check sequence, by the last word of a pcap header.
pub(crate) fn fcs_in(word: u32) -> Option<bool>
    ensures { result ≡ fcs_in word }
{
    if word / 0x0400_0000 % 2 == 1 {
        fcs_of(2 * (word / 0x1000_0000) as u8)
    } else {
        None
    }
}

/// Returns whether the packets of an interface end with their check sequence.
pub(crate) fn fcs_on(interfaces: &[Interface], number: u32) -> Option<bool>
    ensures { result ≡ fcs_on interfaces.now number }
{
    interfaces.get(number as usize)?.fcs
}

impl Interface {
    /// Creates an interface without options: its times are in microseconds.
    pub(crate) fn new(limit: u32) -> Interface
        ensures { result ≡ plain limit }
    {
        Interface {
            name: None,
            limit,
            resolution: 6,
            offset: 0,
            fcs: None,
            losses: Losses::default(),
        }
    }

    /// Returns the interface with one more option.
    #[tactic(auto, unfolding(crate::specs::Interfaces::with_option))]
    fn with_option(self, order: Order, code: u16, value: &[u8]) -> Result<Interface, Fault>
        ensures { result ≡ with_option order code value.now self }
    {
        let mut changed = self;
        match (code, value) {
            (NAME, _) => changed.name = name_of(value),
            (RESOLUTION, [resolution]) => changed.resolution = *resolution,
            (CHECK_LENGTH, [len]) => changed.fcs = fcs_of(if *len == 32 { 4 } else { *len }),
            (OFFSET, [_, _, _, _, _, _, _, _]) => changed.offset = order.long(value),
            (RESOLUTION | CHECK_LENGTH | OFFSET, _) => return Err(Fault::BadOption),
            _ => {}
        }
        Ok(changed)
    }

    /// Returns the interface with the options in these bytes.
    pub(crate) fn with_options(self, order: Order, options: &[u8]) -> Result<Interface, Fault>
        ensures { result ≡ with_options order (length options.now) options.now self }
    {
        let mut interface = self;
        let mut rest = options;
        while rest.len() > 0 {
            let front = first_option(order, rest)?;
            if front.code == END {
                return Ok(interface);
            }
            let len = front.len as usize;
            interface = interface.with_option(order, front.code, &rest[4..4 + len])?;
            rest = &rest[4 + (len + fill_of(len))..];
        }
        Ok(interface)
    }

    /// Returns the time of a packet in nanoseconds since 1970.
    #[tactic(auto, unfolding(crate::specs::Interfaces::time_of))]
    pub(crate) fn time(self, ticks: u64) -> Result<u128, Fault>
        ensures { result ≡ time_of self ticks }
    {
        let nanos = nanos(self.resolution, ticks);
        if self.offset < 0x8000_0000_0000_0000 {
            return Ok(nanos + self.offset as u128 * SECOND);
        }
        let back = (0x1_0000_0000_0000_0000 - self.offset as u128) * SECOND;
        if nanos < back {
            Err(Fault::Time)
        } else {
            Ok(nanos - back)
        }
    }
}

/// Returns the option with which these bytes begin; it ends within them.
#[tactic(auto, unfolding(crate::specs::Interfaces::first_option))]
pub(crate) fn first_option(order: Order, bytes: &[u8]) -> Result<OptionFront, Fault>
    ensures value { result ≡ first_option order bytes.now }
    ensures within { IfOk result (λ front. 4 + (front.len + fill front.len) ≤ length bytes.now) }
{
    if bytes.len() < 4 {
        return Err(Fault::BadOption);
    }
    let (code, len) = (order.half_at(bytes, 0), order.half_at(bytes, 2));
    if bytes.len() < 4 + (len as usize + fill_of(len as usize)) {
        return Err(Fault::BadOption);
    }
    Ok(OptionFront { code, len })
}

/// Converts units of a resolution to nanoseconds, rounded down.
fn nanos(resolution: u8, ticks: u64) -> u128
    ensures value { result ≡ ticks * 10 ^ 9 / per_second resolution }
    ensures most { result ≤ ticks * 10 ^ 9 }
{
    let scaled = ticks as u128 * SECOND;
    if resolution >= 128 {
        scaled / 2u128.pow((resolution - 128) as u32)
    } else if resolution <= 38 {
        scaled / 10u128.pow(resolution as u32)
    } else {
        // 10 to the 38th is more than any time has nanoseconds.
        0
    }
}

/// Returns the interface of a number.
pub(crate) fn known(interfaces: &[Interface], number: u32) -> Result<Interface, Fault>
    ensures { result ≡ known interfaces.now number }
{
    interfaces
        .get(number as usize)
        .copied()
        .ok_or(Fault::NoInterface)
}

/// Returns true if some interface has the name of a network.
fn has_names(interfaces: &[Interface]) -> bool
    ensures { result ≡ list_any (λ i. is_some i.name) interfaces.now }
{
    interfaces.iter().any(|i| i.name.is_some())
}

/// Returns the network that an interface is named after.
fn named(interfaces: &[Interface], number: u32) -> Option<Net>
    ensures { result ≡ network_named (slice_get interfaces.now number) }
{
    interfaces.get(number as usize)?.name
}

/// Returns the network of an interface, by its number.
pub(crate) fn network_of(interfaces: &[Interface], number: u32) -> Option<Net>
    ensures { result ≡ network_at interfaces.now number }
{
    if has_names(interfaces) {
        named(interfaces, number)
    } else if number == 0 {
        Some(Net::A)
    } else if number == 1 {
        Some(Net::B)
    } else {
        None
    }
}
