//! Links below a root folder, which are looked up below it.
use std::alloc::{AllocError, Global};
use std::io;
use std::io::ErrorKind;
use std::rt::Files;

/// The most links on the way to a file, as many as the machine itself follows.
const MOST_LINKS: u32 = 40;

/// The most names on the way to a file, those of its links among them.
const MOST_STEPS: u32 = 100_000;

/// A root folder by its path, which has no slash at its end.
#[derive(Drop)]
pub(crate) struct Root {
    alloc: Global,
    front: String,
}

/// A way below a root folder.
#[derive(Drop)]
struct Way {
    alloc: Global,
    /// Where it has come to, after all links: nothing at the root, else names with a slash before
    /// each.
    done: String,
    /// The names that are left, the next one last.
    left: Vec<String>,
    links: u32,
}

impl Way {
    /// Puts the names of a path before those that are left.
    fn push_path(&mut self, path: &str) -> Result<(), AllocError> {
        for name in path.rsplit('/') {
            self.left.push(String::from_str(self.alloc, name)?)?;
        }
        Ok(())
    }

    fn follow(&mut self, target: &str) -> io::Result<()> {
        if self.links >= MOST_LINKS {
            return Err(io::Error::from(ErrorKind::FilesystemLoop));
        }
        self.links += 1;
        if target.starts_with('/') {
            self.done = String::new(self.alloc);
        }
        Ok(self.push_path(target)?)
    }

    /// Above the root is the root.
    fn go_to<R: Files>(&mut self, rt: &R, front: &str, name: &str) -> io::Result<()> {
        if name.is_empty() || name == "." {
            return Ok(());
        }
        let (alloc, done) = (self.alloc, self.done.as_str());
        if name == ".." {
            let (above, _) = done.rsplit_once('/').unwrap_or(("", ""));
            self.done = String::from_str(alloc, above)?;
            return Ok(());
        }
        let done = format!(in alloc; "{done}/{name}")?;
        let path = format!(in alloc; "{front}{done}")?;
        if rt.symlink_metadata(path.as_str())?.is_symlink() {
            return self.follow(rt.read_link(alloc, path.as_str())?.as_str());
        }
        self.done = done;
        Ok(())
    }
}

impl Root {
    pub(crate) fn new(alloc: Global, front: &str) -> Result<Root, AllocError> {
        let front = String::from_str(alloc, front)?;
        Ok(Root { alloc, front })
    }

    /// Returns where the machine has the file of a path below the root folder, after all links: an
    /// absolute one begins at the root, and none leads above it. None for a path that isn't below
    /// the root folder.
    pub(crate) fn behind_links<R: Files>(&self, rt: &R, path: &str) -> io::Result<Option<String>> {
        let (alloc, front) = (self.alloc, self.front.as_str());
        let rest = path.strip_prefix(front).unwrap_or("");
        if !rest.starts_with('/') {
            return Ok(None);
        }
        let mut way = Way {
            alloc,
            done: String::new(alloc),
            left: Vec::new(alloc),
            links: 0,
        };
        way.push_path(rest)?;
        for _step in 0..MOST_STEPS {
            let Some(name) = way.left.pop() else {
                let done = way.done.as_str();
                return Ok(Some(format!(in alloc; "{front}{done}")?));
            };
            way.go_to(rt, front, name.as_str())?;
        }
        Err(io::Error::from(ErrorKind::FilesystemLoop))
    }
}
