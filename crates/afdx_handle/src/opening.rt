//! An end system of a plan, and texts that C reads.
ghost use Rattle.std.specs.Prelude.{◌≡◌, ◌<◌, ◌≤◌, [], ◌∷◌, length, take, Some, IfOk};
ghost use Rattle.afdx_handle.specs.EndSystem.{IsOpened};
ghost use Rattle.afdx_handle.specs.Held.{HoldsEnd};
ghost use Rattle.afdx_handle.specs.Listing.{with_front};
ghost use Rattle.afdx_handle.specs.Numbers.{IsOneOf};

use crate::answer::{DONE, SMALL_BUFFER};
use crate::end_system::{EndSystem, Stage};
use crate::handle::{Block, Home};
use afdx_config::Config;
use afdx_tx::open_tx;
use redundant_mux::Outbox;
use std::alloc::{AllocError, Global};

/// Opens an end system of a plan, with all its ports. Allocates all memory that polling, closing and gathering need.
fn open_end(alloc: Global, config: Config) -> Result<EndSystem, AllocError>
    ensures { IfOk result (IsOpened (λ plan. plan ≡ config)) }
{
    let outbox_a = Outbox::of_last_time(alloc)?;
    let outbox_b = Outbox::of_last_time(alloc)?;
    let Ok((emitter, ports, _monitor)) = open_tx(alloc, config, outbox_a, outbox_b) else {
        return Err(AllocError);
    };
    let block = Block::new(alloc)?;
    let stage = Stage::Sending(emitter);
    Ok(EndSystem {
        stage,
        ports,
        a_before: 0,
        b_before: 0,
        block,
    })
}

/// Creates an empty box for each of `ports` ports.
fn empty_boxes(alloc: Global, ports: usize) -> Result<Vec<Box<Home>>, AllocError>
    ensures { IfOk result (λ boxes. length boxes.items ≡ ports) }
{
    let mut boxes = Vec::with_capacity(alloc, ports)?;
    for _port in 0..ports {
        let Some(home) = Box::new(alloc, Home::Nothing).ok() else {
            return Err(AllocError);
        };
        boxes.push_reserved(home);
    }
    Ok(boxes)
}

/// Makes the content of a handle of an end system of a plan, and the mark of the end system.
pub fn open_home(alloc: Global, config: Config) -> Result<(Box<Home>, *const u8), AllocError>
    ensures opened { IfOk result (λ made. HoldsEnd (Some made.0.value) (IsOpened (λ plan. plan ≡ config))) }
    ensures marked { IfOk result (λ made. HoldsEnd (Some made.0.value) (λ end. made.1 ≡ end.block)) }
{
    let end_system = open_end(alloc, config)?;
    let mark = end_system.block.address();
    let boxes = empty_boxes(alloc, end_system.ports.len())?;
    let Some(boxed) = Box::new(alloc, Some(end_system)).ok() else {
        return Err(AllocError);
    };
    match Box::new(alloc, Home::EndSystem(boxed, boxes)).ok() {
        Some(home) => Ok((home, mark)),
        None => Err(AllocError),
    }
}

/// Writes as much of a text as fits into the buffer.
pub fn write_front(buffer: &mut [u8], text: &[u8]) -> u8
    ensures answers { IsOneOf result (DONE ∷ SMALL_BUFFER ∷ []) }
    ensures whole { result ≡ DONE → length text.now ≤ length buffer.old }
    ensures small { result ≡ SMALL_BUFFER → length buffer.old < length text.now }
    ensures front { buffer.new ≡ with_front (take (length buffer.old) text.now) buffer.old }
{
    let room = buffer.len().min(text.len());
    buffer[..room].copy_from_slice(&text[..room]);
    if room < text.len() {
        SMALL_BUFFER
    } else {
        DONE
    }
}
