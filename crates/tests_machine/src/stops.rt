//! Other things in the place of the files by which a daemon is asked to stop.
use crate::scratch::{new_folder, path_in, remove_folder};
use cs_machine::RequestFile;
use std::fs;
use std::os::unix::fs::symlink;
use std::process::id;

/// A link that leads nowhere is there, and is removed; a folder is there, and stays.
#[test]
fn others_in_its_place(rt: HostRuntime) {
    let folder = new_folder(&rt, "others", id(rt.process()));
    let path = path_in(&rt, folder.as_str(), "cronsafe stop");
    let file = RequestFile::to_stop(rt.alloc(), folder.as_str()).expect(&rt, "memory");
    symlink(&rt, "no_such_file_here", path.as_str()).expect(&rt, "a link");
    assert!(rt; file.is_there(&rt) && file.make(&rt).is_ok());
    assert!(rt; file.remove(&rt).is_ok() && !file.is_there(&rt));
    fs::create_dir(&rt, path.as_str()).expect(&rt, "a folder");
    assert!(rt; file.is_there(&rt) && file.make(&rt).is_ok());
    assert!(rt; file.remove(&rt).is_err() && file.is_there(&rt));
    remove_folder(&rt, folder.as_str());
}
