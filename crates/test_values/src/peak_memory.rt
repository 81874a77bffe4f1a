//! The most memory that the process had, for the programs that measure what the pools take.

use std::fs;
use std::io::{self, ErrorKind};
use std::rt::Files;

/// Where the system tells a process what it has.
const STATUS: &str = "/proc/self/status";

/// Returns the most kilobytes that were resident at once.
///
/// # Errors
///
/// If the system's figures can't be read.
pub fn peak_kilobytes(rt: &(impl Files + Alloc)) -> io::Result<u64> {
    kilobytes(rt, "VmHWM:")
}

/// Returns the most kilobytes that the process had at once, those too that it never wrote to.
///
/// # Errors
///
/// If the system's figures can't be read.
pub fn peak_virtual_kilobytes(rt: &(impl Files + Alloc)) -> io::Result<u64> {
    kilobytes(rt, "VmPeak:")
}

/// What the system tells under a name.
fn kilobytes(rt: &(impl Files + Alloc), name: &str) -> io::Result<u64> {
    let status = fs::read_to_string(rt, STATUS)?;
    number_in(&status, name).ok_or(io::Error::from(ErrorKind::InvalidData))
}

/// The number in the line that begins with a name.
fn number_in(status: &str, name: &str) -> Option<u64> {
    let told = status.lines().find_map(|line| line.strip_prefix(name))?;
    told.split_whitespace().next()?.parse().ok()
}
