// Files of the tests' own.
use std::path::PathBuf;
use std::{env, io, process};

/// A name in the system's folder for temporary files that no other test of this kind has.
pub fn path(rt: &HostRuntime, name: &str) -> io::Result<PathBuf> {
    let name = format!(in rt.alloc(); "puma-test-{}-{name}", process::id(rt.process()))?;
    Ok(env::temp_dir(rt)?.join(rt.alloc(), name.as_str())?)
}
