//! Folders and files that tests make.
use std::fs;
use std::fs::OpenOptions;
use std::io::Write;
use std::test::Fail;

/// An empty folder.
pub(crate) fn make_folder(rt: &HostRuntime, folder: &str) -> Result<(), Fail> {
    let _ = fs::remove_dir_all(rt, folder);
    fs::create_dir(rt, folder)?;
    Ok(())
}

/// Removes a folder and all that is in it.
pub(crate) fn remove_folder(rt: &HostRuntime, folder: &str) -> Result<(), Fail> {
    fs::remove_dir_all(rt, folder)?;
    Ok(())
}

/// A folder with one file, which has this name and these bytes.
pub(crate) fn make_file(
    rt: &HostRuntime,
    folder: &str,
    name: &str,
    bytes: &[u8],
) -> Result<(), Fail> {
    make_folder(rt, folder)?;
    fs::write(rt, name, bytes)?;
    Ok(())
}

/// Appends these bytes to a file.
pub(crate) fn append(rt: &HostRuntime, name: &str, bytes: &[u8]) -> Result<(), Fail> {
    let mut file = OpenOptions::new().append(true).open(rt, name)?;
    file.write_all(bytes)?;
    Ok(())
}

/// Whether a file holds these bytes.
pub(crate) fn holds(rt: &HostRuntime, name: &str, bytes: &[u8]) -> Result<bool, Fail> {
    let held = fs::read(rt, name)?;
    Ok(held.as_slice() == bytes)
}

/// Whether there is a file of this name.
pub(crate) fn is_there(rt: &HostRuntime, name: &str) -> bool {
    fs::metadata(rt, name).is_ok()
}
