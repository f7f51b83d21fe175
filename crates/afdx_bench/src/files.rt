//! The files that the words name.
use crate::stop::{Cause, Stop, of_file};
use afdx_plan::Config;
use bench_words::{Halting, read_plan};
use std::alloc::{AllocError, Global};
use std::fs::{self, File, Metadata};
use std::io::{self, BufWriter};
use std::os::fd::AsRawFd;
use std::os::unix::fs::MetadataExt;
use tx_script::RunFault;

// The size of the buffer of a file that is written, in bytes.
const BUFFER: usize = 65_536;

/// Takes the number of a closed standard stream, so that no other file gets it. A folder can be neither
/// read nor written, so the stream still fails. `None` if all three streams are open.
pub fn stand_in(rt: &HostRuntime) -> Option<File> {
    let folder = File::open(rt, "/").ok()?;
    if folder.as_raw_fd() <= 2 {
        Some(folder)
    } else {
        None
    }
}

/// Opens a file that a word names.
pub fn open<'a>(rt: &HostRuntime, path: &'a str) -> Result<File, Stop<'a>> {
    File::open(rt, path).map_err(|error| failed(error, RunFault::Read, path))
}

/// Opens a file, if a word names one.
pub fn open_given<'a>(
    rt: &HostRuntime,
    path: &'a Option<String>,
) -> Result<Option<File>, Stop<'a>> {
    match path {
        Some(path) => Ok(Some(open(rt, path.as_str())?)),
        None => Ok(None),
    }
}

/// Opens the file of a plan and reads it. Returns the file too, since no written file may be the same.
pub fn open_plan<'a>(rt: &HostRuntime, path: &'a str) -> Result<(File, Config), Stop<'a>> {
    let text = open(rt, path)?;
    let plan = of_file(read_plan(rt.alloc(), &text), path, Cause::UnreadPlan)?;
    Ok((text, plan))
}

/// Makes a file, or empties it, if a word names one. If it is one of the files that are read, under any name, returns
/// Write and leaves the file unchanged.
pub fn create<'a>(
    rt: &HostRuntime,
    path: &'a Option<String>,
    read: &[&File],
) -> Result<Option<File>, Stop<'a>> {
    let Some(path) = path else {
        return Ok(None);
    };
    let path = path.as_str();
    let made = match is_any(rt, path, read) {
        Ok(false) => File::create(rt, path),
        Ok(true) => return Err(Stop::by_file(RunFault::Write, path, Cause::Same)),
        Err(error) => Err(error),
    };
    match made {
        Ok(file) => Ok(Some(file)),
        Err(error) => Err(failed(error, RunFault::Write, path)),
    }
}

/// Returns Write, blamed on the second path, if both paths lead to one file, under any names: the second would replace
/// the content of the first.
pub fn differ<'a>(
    rt: &HostRuntime,
    first: &Option<String>,
    second: &'a Option<String>,
) -> Result<(), Stop<'a>> {
    let (Some(first), Some(second)) = (first, second) else {
        return Ok(());
    };
    match (
        fs::metadata(rt, first.as_str()),
        fs::metadata(rt, second.as_str()),
    ) {
        (Ok(found), Ok(other)) if is_same(&found, &other) => {
            Err(Stop::by_file(RunFault::Write, second.as_str(), Cause::Twice))
        }
        _ => Ok(()),
    }
}

/// Blames an error of a file that is written on its path.
pub fn written<'a>(done: io::Result<()>, path: &'a str) -> Result<(), Stop<'a>> {
    done.map_err(|error| failed(error, RunFault::Write, path))
}

/// Returns a buffered writer to a file.
pub fn buffered(alloc: Global, file: File) -> Result<BufWriter<Halting<File>>, AllocError> {
    let buffer = BufWriter::with_capacity(alloc, BUFFER, Halting::new(file));
    buffer.map_err(|_| AllocError)
}

/// Converts an error of a file to the end of a command.
fn failed(error: io::Error, fault: RunFault, path: &str) -> Stop<'_> {
    match error.kind() {
        io::ErrorKind::OutOfMemory => Stop::from(AllocError),
        _ => Stop::by_file(fault, path, Cause::System(error)),
    }
}

/// Returns whether two files are one: both have the same number on the same device.
fn is_same(one: &Metadata, other: &Metadata) -> bool {
    one.dev() == other.dev() && one.ino() == other.ino()
}

/// Returns whether a path leads to one of some open files.
fn is_any(rt: &HostRuntime, path: &str, files: &[&File]) -> io::Result<bool> {
    match fs::metadata(rt, path) {
        Ok(found) => {
            for file in files {
                if is_same(&found, &file.metadata()?) {
                    return Ok(true);
                }
            }
            Ok(false)
        }
        Err(error) if error.kind() == io::ErrorKind::NotFound => Ok(false),
        Err(error) => Err(error),
    }
}
