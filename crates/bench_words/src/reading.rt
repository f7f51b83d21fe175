//! Reading of plans, and the commands `check` and `explain`.
ghost use Rattle.std.specs.Prelude.{◌≡◌, ◌≢◌, ◌≤◌, ◌⊎◌, nat_le, IfOk, IfErr, IfSome, OnOk, vec_len};
ghost use Rattle.std.specs.Io.KnownBytes.{Keeps};
ghost use Rattle.bench_words.specs.Reading.{IsRefusal, Reports, TellsFaults, end_of, text_limit};
ghost use Rattle.afdx_config.specs.Faults.{IsPlanOf};
ghost use Rattle.sha2.specs.Sha256.{sha256};

use crate::status::{End, Failure};
use afdx_config::{Explanation, explain_file, read_config};
use afdx_plan::Config;
use plan_report::{Digested, write_report};
use script_text::RunFault;
use sha2::{Digest, Sha256};
use std::alloc::Global;
use std::io::{self, Read, Write};

/// The most bytes of a plan's text, including comments: about four hundred times the size of
/// the greatest plan.
pub const TEXT_LIMIT: u64 = 16_777_216;

/// Reads the rest of a reader as a plan. Returns `Read` if the reader fails or has more than
/// `TEXT_LIMIT` bytes.
pub fn read_plan<R: Read + Drop>(alloc: Global, reader: R) -> Result<Config, Failure>
    ensures plan { IfOk result (λ config. IfSome (R.remaining reader) (λ text. IsPlanOf text config)) }
    ensures refused { IfErr result (λ failure. IfSome (R.remaining reader) (λ text. IsRefusal text failure)) }
{
    let text = read_text(alloc, reader)?;
    read_config(alloc, text.as_slice()).map_err(Failure::Config)
}

/// Reads as `read_plan` does, and computes the digest of the text.
pub fn read_digested<R: Read + Drop>(alloc: Global, reader: R) -> Result<Digested, Failure>
    ensures plan { IfOk result (λ read. IfSome (R.remaining reader) (λ text. IsPlanOf text read.config)) }
    ensures digest { IfOk result (λ read. IfSome (R.remaining reader) (λ text. read.digest ≡ sha256 text)) }
    ensures refused { IfErr result (λ failure. IfSome (R.remaining reader) (λ text. IsRefusal text failure)) }
{
    let text = read_text(alloc, reader)?;
    let config = read_config(alloc, text.as_slice()).map_err(Failure::Config)?;
    Ok(Digested {
        config,
        digest: Sha256::digest(text.as_slice()),
    })
}

/// Reads a plan and writes the report on it. Writes nothing if the plan is
/// refused, an allocation fails, or the reader fails.
pub fn check<R: Read + Drop, W: Write>(
    alloc: Global,
    reader: R,
    writer: &mut W,
) -> Result<(), Failure>
    ensures ok { OnOk result (IfSome (R.remaining reader) (λ text.
        Reports text (W.contents writer.old) (W.contents writer.new))) }
    ensures refused { IfErr result (λ failure. IfSome (R.remaining reader) (λ text.
        failure ≢ Failure.Run RunFault.Write → IsRefusal text failure)) }
    ensures unchanged { IfErr result (λ failure. failure ≢ Failure.Run RunFault.Write →
        Keeps (W.contents writer.old) (W.contents writer.new)) }
{
    let config = read_plan(alloc, reader)?;
    match write_report(writer, &config) {
        Ok(()) => Ok(()),
        Err(_) => Err(Failure::Run(RunFault::Write)),
    }
}

/// Reads a plan and writes the text of its explanation, whose lines begin with the name of its file. Writes
/// nothing if an allocation or the reader fails.
pub fn tell_faults<R: Read + Drop, W: Write>(
    alloc: Global,
    reader: R,
    name: &str,
    writer: &mut W,
) -> Result<End, Failure>
    ensures ok { IfOk result (λ end. IfSome (R.remaining reader) (λ text.
        TellsFaults text end (W.contents writer.old) (W.contents writer.new))) }
    ensures failed { IfErr result (λ failure. (failure ≡ Failure.Run RunFault.Read)
        ⊎ (failure ≡ Failure.Run RunFault.Memory) ⊎ (failure ≡ Failure.Run RunFault.Write)) }
    ensures unchanged { IfErr result (λ failure. failure ≢ Failure.Run RunFault.Write →
        Keeps (W.contents writer.old) (W.contents writer.new)) }
{
    let text = read_text(alloc, reader)?;
    match explain_file(alloc, text.as_slice(), name) {
        Ok(told) => {
            let end = end_of(&told);
            match writer.write_all(told.text.as_slice()) {
                Ok(()) => Ok(end),
                Err(_) => Err(Failure::Run(RunFault::Write)),
            }
        }
        Err(_) => Err(Failure::Run(RunFault::Memory)),
    }
}

fn end_of(told: &Explanation) -> End
    ensures { result ≡ end_of told.now.count }
{
    if told.count == 0 {
        End::Told
    } else {
        End::FaultsTold
    }
}

/// Reads the rest of a reader, of at most `TEXT_LIMIT` bytes.
pub fn read_text<R: Read + Drop>(alloc: Global, reader: R) -> Result<Vec<u8>, Failure>
    ensures whole { IfOk result (λ text. IfSome (R.remaining reader) (λ bytes. text.items ≡ bytes)) }
    ensures limit { IfOk result (λ text. vec_len text ≤ text_limit) }
    ensures failed { IfErr result (λ failure.
        (failure ≡ Failure.Run RunFault.Read) ⊎ (failure ≡ Failure.Run RunFault.Memory)) }
{
    let mut text = Vec::new(alloc);
    let mut reader = reader.take(TEXT_LIMIT + 1);
    match reader.read_to_end(&mut text) {
        Ok(_) if text.len() as u64 <= TEXT_LIMIT => Ok(text),
        Err(error) if error.kind() == io::ErrorKind::OutOfMemory => {
            Err(Failure::Run(RunFault::Memory))
        }
        _ => Err(Failure::Run(RunFault::Read)),
    }
}
