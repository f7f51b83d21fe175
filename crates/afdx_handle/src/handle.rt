//! The content of a handle, which C holds by pointer: a home, or nothing; and the block of memory that tells an end
//! system from all others.
ghost use Rattle.std.specs.Prelude.{◌≡◌, ◌<◌, Option, Some, None, IsSome, IsNone, is_none, MatchOption, IfOk, vec_capacity};
ghost use Rattle.std_alloc.specs.Vec.{vec_ptr};
ghost use denote.RawPtr.{Ptr};

use crate::end_system::EndSystem;
use crate::seal::Sealed;
use afdx_tx::TxPort;
use std::alloc::{AllocError, Global};
use std::marker::Model;
use std::sync::Arc;

/// A block of memory with several owners. Contracts see its address. It isn't freed while it has an
/// owner, so that no other block has its address.
#[derive(Drop)]
pub struct Block {
    // A list's contract shows its address, an `Arc`'s doesn't.
    bytes: Arc<Vec<u8>, Global>,
}

impl Model for Block {
    ghost Value = { Ptr };

    ghost view = { λ b. vec_ptr b.bytes.value };

    ghost invariant = { λ b. 0 < vec_capacity b.bytes.value };
}

impl Block {
    /// Creates a block with one owner.
    pub fn new(alloc: Global) -> Result<Block, AllocError> {
        let bytes = Vec::with_capacity(alloc, 1)?;
        match Arc::new(alloc, bytes) {
            Ok(bytes) => Ok(Block { bytes }),
            Err(_) => Err(AllocError),
        }
    }

    /// Returns another owner of the same block.
    pub fn another_owner(&self) -> Result<Block, AllocError>
        ensures { IfOk result (λ block. block ≡ self.now) }
    {
        let bytes = Arc::try_clone(&self.bytes)?;
        Ok(Block { bytes })
    }

    /// Returns the block's address.
    pub fn address(&self) -> *const u8
        ensures { result ≡ self.now }
    {
        (*self.bytes).as_ptr()
    }
}

/// A port, and the block whose address is the mark of its end system.
#[derive(Drop)]
pub struct OwnPort {
    pub port: TxPort,
    pub block: Block,
}

/// The content of a handle: an end system, a port, or nothing while the content changes its kind. An end system is in a
/// block of its own, so that the block of a port is small. It is taken out of the block while its ports are gathered.
/// Beside it are empty boxes, one for each port that is in it.
#[derive(Drop)]
pub enum Home {
    EndSystem(Box<Option<EndSystem>>, Vec<Box<Home>>),
    Port(OwnPort),
    Nothing,
}

// C may move a handle to another thread, so its content must be `Send`.
fn needs_send<T: Send>(_it: &T) {}

fn home_is_send(it: &Home) {
    needs_send(it);
}

/// A home, or nothing. In C a handle whose bytes are all zero holds nothing.
#[repr(C)]
#[derive(Drop)]
pub struct Handle {
    pub kept: Sealed,
    held: u8,
    ghost nothing: { held ≡ 0 → IsNone kept.home },
    ghost something: { 0 < held → IsSome kept.home },
}

/// A handle in the layout of C, with the mark of its end system, or of its port's: the address of a block, as a number.
/// The mark means something only beside the content of `Handle`.
#[repr(C)]
#[derive(Drop)]
pub struct Marked {
    pub handle: Handle,
    pub mark: u64,
}

/// A handle in the layout of C while it is filled with an end system. The mark is written as an address, which no code
/// here can read as a number.
#[repr(C)]
#[derive(Drop)]
pub struct Opening {
    pub handle: Handle,
    pub mark: *const u8,
}

impl Handle {
    /// Returns true if the handle holds nothing.
    pub fn is_empty(&self) -> bool
        ensures { result ≡ is_none self.now.kept.home }
    {
        self.held == 0
    }

    /// Takes the home out, and leaves the handle empty.
    pub fn take(&mut self) -> Option<Box<Home>>
        ensures taken { MatchOption result (self.old.kept.home ≡ None) (λ home. self.old.kept.home ≡ Some home.value) }
        ensures left { self.new.kept.home ≡ None }
    {
        if self.held == 0 {
            return None;
        }
        self.held = 0;
        Some(self.kept.take())
    }

    /// Puts a home in.
    pub fn put(&mut self, home: Box<Home>)
        requires { self.old.kept.home ≡ None }
        ensures { self.new.kept.home ≡ Some home.value }
    {
        self.kept = Sealed::of(home);
        self.held = 1;
    }
}
