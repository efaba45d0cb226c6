//! A mock system for the tests: files in memory, one call of which can fail, and known random bytes.

use crate::streams::tell_lines;
use scram_base_lib::store::Locks;
use std::alloc::Global;
use std::cell::Cell;
use std::fs::{Metadata, OpenFile, OpenOptions, Permissions, TryLockError};
use std::io::{Error, ErrorKind, Read, Result, Seek, SeekFrom, Write};
use std::os::unix::fs::PermissionsExt;
use std::random::RandomSource;
use std::rc::Rc;
use std::rt::{Clock, Files};
use std::time::Duration;

/// The mode of a folder, beside its permissions.
pub const FOLDER: u32 = 0o40000;

/// A file's content and permissions, or a folder.
#[derive(Drop)]
pub struct Node {
    bytes: Cell<Vec<u8>>,
    mode: Cell<u32>,
}

/// The files by name, the number of calls, and the number of the failing one, counted from 1.
#[derive(Drop)]
struct System {
    alloc: Global,
    stored: Cell<Vec<(String, Rc<Node>)>>,
    calls: Cell<u32>,
    failing: u32,
    private: Metadata,
}

/// Files in memory.
#[derive(Drop)]
pub struct Disk {
    system: Rc<System>,

    /// The random bytes: the n-th call returns copies of the n-th, or of the last. Without any, the bytes count up.
    pub random: Vec<u8>,
}

/// An open file.
#[derive(Drop)]
pub struct Open {
    system: Rc<System>,
    node: Rc<Node>,
    at: usize,
}

/// Returns the error of a call that no program makes.
fn unsupported<T>() -> Result<T> {
    Err(Error::from(ErrorKind::Unsupported))
}

impl System {
    /// Counts a call, and returns an error if it is the failing one.
    fn count(&self) -> Result<()> {
        let made = self.calls.get().saturating_add(1);
        self.calls.set(made);
        if made == self.failing {
            return Err(Error::from(ErrorKind::Other));
        }
        Ok(())
    }

    /// Returns the answer about a file: only its owner can use it, or everybody can read it.
    fn facts_of(&self, node: &Node) -> Result<Metadata> {
        match node.mode.get() {
            FOLDER.. => Ok(Metadata::of_dir()),
            mode if mode % 0o100 == 0 => Ok(self.private.clone()?),
            _ => Ok(Metadata::of_file(0)),
        }
    }

    /// Adds bytes to a file.
    fn append(&self, node: &Node, bytes: &[u8]) -> Result<()> {
        let mut held = node.bytes.replace(Vec::new(self.alloc));
        let written = held.extend_from_slice(bytes);
        node.bytes.set(held);
        Ok(written?)
    }
}

impl Disk {
    /// Returns a disk without files, with the number of its failing call. `private` is the metadata of a file that only
    /// its owner can use, which a program cannot make.
    pub fn new(alloc: Global, failing: u32, private: &Metadata) -> Result<Disk> {
        let system = System {
            alloc,
            stored: Cell::new(Vec::new(alloc)),
            calls: Cell::new(0),
            failing,
            private: private.clone()?,
        };
        let disk = Disk {
            system: Rc::new(alloc, system)?,
            random: Vec::new(alloc),
        };
        drop(disk.insert(".", FOLDER)?);
        Ok(disk)
    }

    /// Returns the number of calls.
    pub fn calls(&self) -> u32 {
        self.system.calls.get()
    }

    /// Adds bytes to the last file.
    pub fn append(&self, bytes: &[u8]) -> Result<()> {
        let stored = self.system.stored.replace(Vec::new(self.alloc()));
        let appended = match stored.last() {
            Some((_, node)) => self.system.append(node, bytes),
            None => Ok(()),
        };
        self.system.stored.set(stored);
        appended
    }

    /// Adds an empty file with its mode.
    pub fn insert(&self, name: &str, mode: u32) -> Result<Rc<Node>> {
        let node = Node {
            bytes: Cell::new(Vec::new(self.alloc())),
            mode: Cell::new(mode),
        };
        let node = Rc::new(self.alloc(), node)?;
        self.name(name, node.clone()?)?;
        Ok(node)
    }

    /// Adds a file under a new name.
    fn name(&self, name: &str, node: Rc<Node>) -> Result<()> {
        let name = name.to_string(self.alloc())?;
        let mut stored = self.system.stored.replace(Vec::new(self.alloc()));
        let pushed = stored.push((name, node));
        self.system.stored.set(stored);
        Ok(pushed?)
    }

    /// Returns the file of a name.
    fn find(&self, name: &str) -> Result<Rc<Node>> {
        let stored = self.system.stored.replace(Vec::new(self.alloc()));
        let found = match stored.iter().find(|file| file.0.as_str() == name) {
            Some((_, node)) => node.clone().map_err(Error::from),
            None => Err(Error::from(ErrorKind::NotFound)),
        };
        self.system.stored.set(stored);
        found
    }

    /// Removes a file, if there is one.
    fn remove(&self, name: &str) {
        let mut stored = self.system.stored.replace(Vec::new(self.alloc()));
        stored.retain(|file| file.0.as_str() != name);
        self.system.stored.set(stored);
    }

    /// Writes each file as the lines of a paragraph: `F NAME MODE`, and `+ LINE` for each line.
    pub fn tell(&self, text: &mut String) -> Result<()> {
        let stored = self.system.stored.replace(Vec::new(self.alloc()));
        for (name, node) in stored.iter().skip(1) {
            let mode = node.mode.get() & 0o777;
            write!(text, "F {name} {mode:o}\n")?;
            let bytes = node.bytes.replace(Vec::new(self.alloc()));
            tell_lines(text, "+", &bytes)?;
            node.bytes.set(bytes);
        }
        self.system.stored.set(stored);
        Ok(())
    }
}

impl Alloc for Disk {
    type A = Global;

    fn alloc(&self) -> Global {
        self.system.alloc
    }
}

impl RandomSource for Disk {
    fn fill_bytes(&self, buffer: &mut [u8]) -> Result<()> {
        let known = self.random.get(self.calls() as usize);
        let known = known.or(self.random.last()).copied();
        self.system.count()?;
        for (place, byte) in buffer.iter_mut().enumerate() {
            *byte = known.unwrap_or((place % 256) as u8);
        }
        Ok(())
    }
}

impl Clock for Disk {
    fn monotonic(&self) -> Result<Duration> {
        unsupported()
    }

    fn since_1970(&self) -> Result<Duration> {
        unsupported()
    }
}

impl Files for Disk {
    type File = Open;

    type Dir = Open;

    fn open_file(&self, how: &OpenOptions, path: &str) -> Result<Open> {
        how.check()?;
        self.system.count()?;
        let node = match self.find(path) {
            Ok(_) if how.asks_create_new() => return Err(Error::from(ErrorKind::AlreadyExists)),
            Err(_) if how.asks_create_new() => self.insert(path, 0)?,
            found => found?,
        };
        Ok(Open {
            system: self.system.clone()?,
            node,
            at: 0,
        })
    }

    fn open_dir(&self, _path: &str) -> Result<Open> {
        unsupported()
    }

    fn metadata(&self, path: &str) -> Result<Metadata> {
        self.system.count()?;
        let node = self.find(path)?;
        self.system.facts_of(&node)
    }

    fn symlink_metadata(&self, path: &str) -> Result<Metadata> {
        self.metadata(path)
    }

    fn lchown(&self, _path: &str, _uid: Option<u32>, _gid: Option<u32>) -> Result<()> {
        self.system.count()
    }

    fn copy(&self, _from: &str, _to: &str) -> Result<u64> {
        unsupported()
    }

    fn rename(&self, from: &str, to: &str) -> Result<()> {
        self.system.count()?;
        let node = self.find(from)?;
        self.remove(to);
        self.remove(from);
        self.name(to, node)
    }

    fn remove_file(&self, path: &str) -> Result<()> {
        self.system.count()?;
        drop(self.find(path)?);
        self.remove(path);
        Ok(())
    }

    fn hard_link(&self, original: &str, link: &str) -> Result<()> {
        self.system.count()?;
        if self.find(link).is_ok() {
            return Err(Error::from(ErrorKind::AlreadyExists));
        }
        self.name(link, self.find(original)?)
    }

    fn create_dir(&self, _path: &str) -> Result<()> {
        unsupported()
    }

    fn remove_dir(&self, _path: &str) -> Result<()> {
        unsupported()
    }

    fn remove_dir_all<B: std::alloc::Allocator>(&self, _alloc: B, _path: &str) -> Result<()> {
        unsupported()
    }
}

impl Locks for Disk {
    /// Locks a file, unless its text says that it is locked.
    fn try_lock(&self, file: &Open) -> std::result::Result<(), TryLockError> {
        self.system.count().map_err(TryLockError::Error)?;
        let bytes = file.node.bytes.replace(Vec::new(self.alloc()));
        let is_locked = bytes.as_slice() == b"locked\n".as_slice();
        file.node.bytes.set(bytes);
        if is_locked {
            return Err(TryLockError::WouldBlock);
        }
        Ok(())
    }
}

impl OpenFile for Open {
    fn metadata(&self) -> Result<Metadata> {
        self.system.count()?;
        self.system.facts_of(&self.node)
    }

    fn set_len(&self, _size: u64) -> Result<()> {
        unsupported()
    }

    fn sync_all(&self) -> Result<()> {
        self.system.count()
    }

    fn sync_data(&self) -> Result<()> {
        unsupported()
    }

    fn set_permissions(&self, permissions: Permissions) -> Result<()> {
        self.system.count()?;
        self.node.mode.set(permissions.mode());
        Ok(())
    }
}

impl Read for Open {
    fn read(&mut self, buffer: &mut [u8]) -> Result<usize> {
        self.system.count()?;
        let bytes = self.node.bytes.replace(Vec::new(self.system.alloc));
        let left = bytes.get(self.at..).unwrap_or(&[]);
        let len = left.len().min(buffer.len());
        buffer[..len].copy_from_slice(&left[..len]);
        self.at = self.at.saturating_add(len);
        self.node.bytes.set(bytes);
        Ok(len)
    }
}

impl Write for Open {
    fn write(&mut self, bytes: &[u8]) -> Result<usize> {
        self.system.count()?;
        self.system.append(&self.node, bytes)?;
        Ok(bytes.len())
    }

    fn flush(&mut self) -> Result<()> {
        Ok(())
    }
}

impl Seek for Open {
    fn seek(&mut self, _to: SeekFrom) -> Result<u64> {
        unsupported()
    }
}
