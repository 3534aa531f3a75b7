//! The machine's files, which tell nothing of what they hold.

ghost use Rattle.std.specs.Prelude.{◌≡◌, ◌≤◌, length, None, IfOk};
ghost use Rattle.dfx_outside.specs.Causes.{Rose};
ghost use Rattle.dfx_outside.specs.declared.files.FilesRefused.TheVariants as refused_as;

use dfx_outside::{Failed, Files, FilesRefused, Source};
use dfx_value::{NoMemory, Text};
use std::fs::{self, File, Metadata};
use std::io::{self, ErrorKind, Read};
use std::os::unix::fs::FileExt;
use std::rt::Files as FileSystem;
use std::str;

/// The names of a table's files in a folder end so. Of others nothing is asked.
const ENDING: &[u8] = b".csv";

/// How many bytes of names a folder is asked for at once: many names, and more than one, which has 255 at most.
const NAMES: usize = 8192;

/// Refuses what is no plain file: a folder, a pipe, a device.
fn require_plain(found: &Metadata) -> io::Result<()> {
    if found.is_file() {
        Ok(())
    } else {
        Err(io::Error::from(ErrorKind::InvalidInput))
    }
}

/// An opened file, of the size that it had then.
#[derive(Drop)]
pub struct RealSource {
    file: File,
    size: u64,
    faults: u64,
}

impl RealSource {
    /// Reads into the buffer from a place, and again where a signal interrupts that.
    fn read_again(&self, at: u64, buffer: &mut [u8]) -> io::Result<usize>
        ensures within { IfOk result (λ n. n ≤ length buffer.old) }
    {
        for _ in 0..u64::MAX {
            match self.file.read_at(buffer, at) {
                Err(error) if error.kind() == ErrorKind::Interrupted => {}
                read => return read,
            }
        }
        Err(io::Error::from(ErrorKind::Interrupted))
    }
}

impl Source for RealSource {
    ghost told = { λ _. None };

    ghost size = { λ s. s.size };

    ghost faults = { λ s. s.faults };

    fn size(&self) -> u64 {
        self.size
    }

    /// Reads from a place. A file that has no more bytes there, below its size, has lost some, and fails.
    fn read_at(&mut self, at: u64, buffer: &mut [u8]) -> Result<usize, Failed> {
        match self.read_again(at, buffer) {
            Ok(count) if count > 0 || buffer.is_empty() || self.size <= at => Ok(count),
            _ => {
                self.faults = self.faults.saturating_add(1);
                Err(Failed)
            }
        }
    }
}

/// The machine's files.
#[derive(Drop)]
pub struct RealFiles {
    rt: HostRuntime,
    faults: u64,
    absences: u64,
}

impl RealFiles {
    pub fn new(rt: HostRuntime) -> RealFiles {
        RealFiles {
            rt,
            faults: 0,
            absences: 0,
        }
    }

    /// Opens a plain file and asks for its size. Another thing at the path is refused before it is opened, since the
    /// opening of a pipe waits for its writer, and once more after, since it may have come in between.
    fn open(&self, path: &Text) -> io::Result<RealSource>
        ensures { IfOk result (λ one. one.faults ≡ 0) }
    {
        require_plain(&fs::metadata(&self.rt, path.as_str())?)?;
        let file = fs::open(&self.rt, path.as_str())?;
        let found = file.metadata()?;
        require_plain(&found)?;
        Ok(RealSource {
            file,
            size: found.len(),
            faults: 0,
        })
    }

    /// The paths of the files in a folder whose names end as those of a table do, in the order of their bytes.
    fn paths(&self, folder: &Text) -> io::Result<Vec<Text>> {
        let mut paths = Vec::new(self.rt.alloc());
        let mut names = self.rt.open_dir(folder.as_str())?;
        let mut buffer = [0; NAMES];
        for _ in 0..u64::MAX {
            match names.read(&mut buffer) {
                Ok(0) => break,
                Ok(count) => self.push_files(folder, &buffer[..count], &mut paths)?,
                Err(error) if error.kind() == ErrorKind::Interrupted => {}
                Err(error) => return Err(error),
            }
        }
        paths.sort()?;
        Ok(paths)
    }

    /// Adds the paths of a table's files among names, each of which ends in a byte 0.
    fn push_files(&self, folder: &Text, names: &[u8], paths: &mut Vec<Text>) -> io::Result<()> {
        for name in names.split(|byte| *byte == 0) {
            if name.ends_with(ENDING) {
                self.push_file(folder, name, paths)?;
            }
        }
        Ok(())
    }

    /// Adds the path of a name, unless it is a folder's, or nothing has it any more. A name that isn't UTF-8 fails.
    fn push_file(&self, folder: &Text, name: &[u8], paths: &mut Vec<Text>) -> io::Result<()> {
        let Ok(name) = str::from_utf8(name) else {
            return Err(io::Error::from(ErrorKind::InvalidFilename));
        };
        let mut path = String::from_str(self.rt.alloc(), folder.as_str())?;
        path.push_str(name)?;
        match fs::symlink_metadata(&self.rt, path.as_str()) {
            Ok(found) if found.is_dir() => {}
            Ok(_) => paths.push(Text::from_string(path))?,
            Err(error) if error.kind() == ErrorKind::NotFound => {}
            Err(error) => return Err(error),
        }
        Ok(())
    }

    /// Counts an error, and says what it is.
    fn refused(&mut self, error: io::Error) -> FilesRefused
        ensures failed { result ≡ refused_as.Failed → Rose self.old.faults self.new.faults }
        ensures absent { result ≡ refused_as.NoSuchFile → Rose self.old.absences self.new.absences }
        ensures later { (self.old.faults ≤ self.new.faults)
            × (self.old.absences ≤ self.new.absences) }
    {
        match error.kind() {
            // Below a file there is nothing.
            ErrorKind::NotFound | ErrorKind::NotADirectory => {
                self.absences = self.absences.saturating_add(1);
                FilesRefused::NoSuchFile
            }
            ErrorKind::OutOfMemory => FilesRefused::NoMemory,
            _ => {
                self.faults = self.faults.saturating_add(1);
                FilesRefused::Failed
            }
        }
    }
}

impl Files for RealFiles {
    type One = RealSource;

    ghost told = { λ _. None };

    ghost faults = { λ f. f.faults };

    ghost absences = { λ f. f.absences };

    /// The paths directly inside a folder that end as those of a table's files do.
    fn list(&mut self, folder: &Text) -> Result<Vec<Text>, FilesRefused> {
        match self.paths(folder) {
            Ok(paths) => Ok(paths),
            Err(error) => Err(self.refused(error)),
        }
    }

    fn open_file(&mut self, path: &Text) -> Result<RealSource, FilesRefused> {
        match self.open(path) {
            Ok(one) => Ok(one),
            Err(error) => Err(self.refused(error)),
        }
    }

    fn close(&mut self, one: RealSource) {
        if one.faults > 0 {
            self.faults = self.faults.saturating_add(1);
        }
    }
}
