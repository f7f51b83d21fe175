//! A virtual link of a plan: its gap, its greatest frame and its networks.
ghost use Rattle.std.specs.Prelude.{◌≡◌, ◌≤◌};
ghost use Rattle.afdx_plan.specs.Plan.{bag_ms, bag_micros, room_of};

use crate::port_plan::VlId;
use std::marker::Model;

/// The plan of a virtual link.
#[derive(Clone, Copy, Debug, PartialEq, Eq)]
pub struct LinkPlan {
    pub id: VlId,
    pub bag: Bag,
    pub lmax: Lmax,
    // the number of sub-VLs: 1 to 4
    pub sub_vls: u8,
    // the capacity of each sub-VL's queue, in messages: 1 to 256
    pub capacity: usize,
    // the networks that carry it
    pub networks: Networks,
}

/// The bandwidth allocation gap of a virtual link: the least time between two of its frames
/// (ARINC 664 Part 7), a power of two from 1 to 128 milliseconds.
#[derive(Clone, Copy, Debug, PartialEq, Eq)]
pub enum Bag {
    Ms1,
    Ms2,
    Ms4,
    Ms8,
    Ms16,
    Ms32,
    Ms64,
    Ms128,
}

impl Bag {
    /// Returns the BAG in milliseconds.
    pub fn ms(self) -> u64
        ensures { result ≡ bag_ms self }
    {
        match self {
            Bag::Ms1 => 1,
            Bag::Ms2 => 2,
            Bag::Ms4 => 4,
            Bag::Ms8 => 8,
            Bag::Ms16 => 16,
            Bag::Ms32 => 32,
            Bag::Ms64 => 64,
            Bag::Ms128 => 128,
        }
    }

    /// Returns the BAG in microseconds, the unit of all times.
    pub fn micros(self) -> u64
        ensures { result ≡ bag_micros self }
    {
        1_000 * self.ms()
    }
}

/// The greatest frame of a link, in bytes with its frame check sequence: 64 to 1,518.
#[derive(Clone, Copy, Debug, PartialEq, Eq)]
pub struct Lmax {
    size: u16,
}

impl Model for Lmax {
    ghost use Rattle.std.specs.Prelude.{ℕ, ◌≤◌};

    ghost Value = { ℕ };

    ghost view = { λ l. l.size };

    ghost inverse = { λ n. record { size = n } };

    ghost invariant = { λ l. (64 ≤ l.size) × (l.size ≤ 1518) };
}

impl Lmax {
    /// Creates an Lmax of `bytes` bytes.
    pub fn new(bytes: u16) -> Lmax
        requires least { 64 ≤ bytes }
        requires most { bytes ≤ 1518 }
        ensures { result ≡ bytes }
    {
        Lmax { size: bytes }
    }

    /// Returns the greatest frame in bytes.
    pub fn bytes(self) -> u16
        ensures value { result ≡ self }
        ensures least { 64 ≤ result }
        ensures most { result ≤ 1518 }
    {
        self.size
    }

    /// Returns the most bytes of a datagram in one frame.
    pub fn room(self) -> u16
        ensures value { result ≡ room_of self }
        ensures least { 25 ≤ result }
        ensures most { result ≤ 1479 }
    {
        self.bytes() - 39
    }
}

/// The networks that carry a virtual link.
#[derive(Clone, Copy, Debug, PartialEq, Eq)]
pub enum Networks {
    Both,
    OnlyA,
    OnlyB,
}

impl Networks {
    ghost use Rattle.std.specs.Prelude.{◌≡◌};
    ghost use Rattle.afdx_plan.specs.Plan.{carries_a, carries_b};

    /// Returns true if the networks include A.
    pub fn carries_a(self) -> bool
        ensures { result ≡ carries_a self }
    {
        match self {
            Networks::Both => true,
            Networks::OnlyA => true,
            Networks::OnlyB => false,
        }
    }

    /// Returns true if the networks include B.
    pub fn carries_b(self) -> bool
        ensures { result ≡ carries_b self }
    {
        match self {
            Networks::Both => true,
            Networks::OnlyA => false,
            Networks::OnlyB => true,
        }
    }
}
