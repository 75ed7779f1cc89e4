//! Folders for tests, which they remove.
use std::fs;
use std::path::PathBuf;
use std::process::Abort;
use std::rt::{Env, Files};

/// The machine's folder for temporary files.
fn parent<R: Env + Abort + AllocGlobal>(rt: &R) -> PathBuf {
    std::env::temp_dir(rt).expect(rt, "a folder for tests")
}

fn path_of<R: Abort + AllocGlobal>(rt: &R, parent: &PathBuf, name: &str, process: u32) -> String {
    let parent = parent.as_path().display();
    format!(in rt.alloc(); "{parent}/cronsafe_{name}_{process}").expect(rt, "memory")
}

/// A new temporary folder, named after the test and the process.
pub(crate) fn new_folder<R: Files + Env + Abort + AllocGlobal>(
    rt: &R,
    name: &str,
    process: u32,
) -> String {
    let parent = parent(rt);
    let folder = path_of(rt, &parent, name, process);
    fs::create_dir(rt, folder.as_str()).expect(rt, "a new folder");
    folder
}

pub(crate) fn remove_folder<R: Files + Abort + AllocGlobal>(rt: &R, folder: &str) {
    fs::remove_dir_all(rt, folder).expect(rt, "no folder");
}

pub(crate) fn path_in<R: Abort + AllocGlobal>(rt: &R, folder: &str, name: &str) -> String {
    format!(in rt.alloc(); "{folder}/{name}").expect(rt, "memory")
}

pub(crate) fn put<R: Files + Abort + AllocGlobal>(rt: &R, folder: &str, name: &str, text: &[u8]) {
    let path = path_in(rt, folder, name);
    fs::write(rt, path.as_str(), text).expect(rt, "a file");
}
