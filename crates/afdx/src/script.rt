//! The calls that need no handle: the version, and reading a line of a script.
ghost use Rattle.std.specs.Prelude.{◌≡◌, ◌≢◌, ◌⊎◌, ◌<◌, ◌≤◌, [], ◌∷◌, length};
ghost use Rattle.script_text.specs.Faults.{IsFaultless, IsFirstFault, line_fault_number};
ghost use Rattle.script_text.specs.Meaning.{meaning_of};
ghost use Rattle.script_text.specs.declared.faults.LineFault.{LineFault};
ghost use Rattle.afdx_handle.specs.Listing.{with_front};
ghost use Rattle.afdx_handle.specs.Numbers.{IsOneOf};
ghost use Rattle.afdx_handle.specs.Script.{laid_out, message_in};

use afdx_handle::answer::{DONE, MEMORY, SMALL_BUFFER};
use afdx_handle::{ScriptLine, VERSION, laid_out, write_message};
use script_text::{LineFault, read_line};
use std::alloc::Global;

/// Returns the version of the library, as a number.
#[unsafe(no_mangle)]
pub extern "C" fn afdx_version_number() -> u32
    ensures { result ≡ VERSION }
{
    VERSION
}

/// Reads a line of a script, given without its end: writes its meaning, and the message of a send into a buffer. On
/// `SMALL_BUFFER`, if the message is longer than the buffer, writes no message. Returns the number of the line's first
/// fault, or `MEMORY`, if an allocation fails; then writes nothing.
#[unsafe(no_mangle)]
pub extern "C" fn afdx_script_line(
    alloc: Global,
    line: &[u8],
    out: &mut ScriptLine,
    buffer: &mut [u8],
) -> u8
    ensures answers { (result ≤ 5) ⊎ IsOneOf result (MEMORY ∷ SMALL_BUFFER ∷ []) }
    ensures said { (result ≡ DONE) ⊎ (result ≡ SMALL_BUFFER) → out.new ≡ laid_out (meaning_of line.now) }
    ensures faultless { (result ≡ DONE) ⊎ (result ≡ SMALL_BUFFER) → IsFaultless line.now }
    ensures message { result ≡ DONE → buffer.new ≡ with_front (message_in (meaning_of line.now)) buffer.old }
    ensures small { result ≡ SMALL_BUFFER → length buffer.old < length (message_in (meaning_of line.now)) }
    ensures fault { 1 ≤ result → result ≤ 5 →
        (fault : LineFault) × (result ≡ line_fault_number fault) × IsFirstFault line.now fault }
    ensures unwritten { result ≢ DONE → buffer.new ≡ buffer.old }
    ensures unsaid { result ≢ DONE → result ≢ SMALL_BUFFER → out.new ≡ out.old }
{
    match read_line(alloc, line) {
        Ok(said) => {
            *out = laid_out(&said);
            write_message(&said, buffer)
        }
        Err(LineFault::Memory) => MEMORY,
        Err(fault) => fault.number(),
    }
}
