//! The plans of one network.
use crate::files::open;
use crate::stop::{Cause, Stop, of_file};
use afdx_config::{Place, id_line};
use afdx_plan::Config;
use bench_words::{read_digested, read_text};
use judge::{Clash, Shared, clashes};
use plan_report::Digested;
use std::alloc::{AllocError, Global};
use std::fs::File;
use std::io;

/// The plans of a network in their order, the files that they were read from, and the digests of their texts.
#[derive(Drop)]
pub struct Network {
    pub files: Vec<File>,
    pub plans: Vec<Config>,
    pub digests: Vec<[u8; 32]>,
}

impl Network {
    /// Adds a plan and its file.
    fn add(&mut self, file: File, read: Digested) -> Result<(), AllocError> {
        let Digested { config, digest } = read;
        self.files.push(file)?;
        self.plans.push(config)?;
        Ok(self.digests.push(digest)?)
    }
}

/// Reads the plans of a network. If two of them share an end system or a link, writes that to standard error, and
/// returns `None`.
pub fn open_network<'a>(rt: &HostRuntime, paths: &[&'a str]) -> Result<Option<Network>, Stop<'a>> {
    let alloc = rt.alloc();
    let mut network = Network {
        files: Vec::new(alloc),
        plans: Vec::new(alloc),
        digests: Vec::new(alloc),
    };
    for path in paths {
        let file = open(rt, path)?;
        let read = of_file(read_digested(alloc, &file), path, Cause::UnreadPlan)?;
        network.add(file, read)?;
    }
    let found = clashes(alloc, network.plans.as_slice())?;
    if found.is_empty() {
        return Ok(Some(network));
    }
    let _told = tell_clashes(rt, paths, found.as_slice());
    Ok(None)
}

/// Returns the paths in some words: the first, if it is given, then the others.
pub fn paths_of<'a>(
    alloc: Global,
    first: Option<&'a String>,
    others: &'a [String],
) -> Result<Vec<&'a str>, AllocError> {
    let mut paths = Vec::new(alloc);
    for path in first.into_iter().chain(others.iter()) {
        paths.push(path.as_str())?;
    }
    Ok(paths)
}

/// Writes what plans share to standard error, each with the files and the lines, if they are known.
fn tell_clashes(rt: &HostRuntime, paths: &[&str], found: &[Clash]) -> io::Result<()> {
    let (count, faults) = (
        found.len(),
        if found.len() == 1 { "fault" } else { "faults" },
    );
    eprintln!(rt; "{count} {faults} of the network")?;
    for clash in found {
        let id = clash.id;
        let (what, first, second) = match clash.shared {
            Shared::EndSystem => ("end system", Place::EndSystem, Place::EndSystem),
            Shared::Link(first, second) => (
                "link",
                Place::Link(first.saturating_add(1)),
                Place::Link(second.saturating_add(1)),
            ),
        };
        tell_place(rt, paths.get(clash.later), second)?;
        eprint!(rt; ": {what} {id} is also in ")?;
        tell_place(rt, paths.get(clash.earlier), first)?;
        eprintln!(rt; "")?;
    }
    Ok(())
}

/// Writes a file and the line of a table's number to standard error. The file is read again.
fn tell_place(rt: &HostRuntime, path: Option<&&str>, place: Place) -> io::Result<()> {
    let path = path.copied().unwrap_or("");
    match line_in(rt, path, place) {
        Some(line) => eprint!(rt; "{path}:{line}"),
        None => eprint!(rt; "{path}"),
    }
}

/// Returns the line of a table's number in a file. `None` if it isn't known, or the file can't be read again.
fn line_in(rt: &HostRuntime, path: &str, place: Place) -> Option<usize> {
    let alloc = rt.alloc();
    let text = read_text(alloc, File::open(rt, path).ok()?).ok()?;
    id_line(alloc, text.as_slice(), place).ok()?
}
