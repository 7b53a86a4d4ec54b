//! Files of the system that new ones take the place of.
ghost use Rattle.std.specs.Prelude.{None, ⊤};

use normalizer_io::{DeviceError, Replacer, Target};
use std::fs::{self, File, OpenOptions};
use std::io::{self, ErrorKind, Write};
use std::os::unix::fs::{MetadataExt, OpenOptionsExt, fchown};
use std::path::PathBuf;

/// How many names are tried for a new file.
const NAMES: usize = 1000;

/// The mode of a new file until it has that of the file which it is to replace.
const PRIVATE: u32 = 0o600;

/// A new file, beside the one that it is to replace.
#[derive(Drop)]
pub(crate) struct NewFile {
    file: File,
    path: PathBuf,
    why: ErrorKind,
}

impl Target for NewFile {
    // What the system takes is unknown.
    ghost bytes_taken = { λ _. None };

    ghost refusal = { λ _ _. ⊤ };

    fn write(&mut self, bytes: &[u8]) -> Result<usize, DeviceError> {
        match self.file.write(bytes) {
            Ok(0) if !bytes.is_empty() => Err(DeviceError),
            Ok(count) => Ok(count),
            Err(error) => {
                self.why = error.kind();
                Err(DeviceError)
            }
        }
    }
}

/// Replaces files of the system. Of a link, the file that it leads to is replaced.
#[derive(Drop)]
pub(crate) struct Renamed<'a>(pub(crate) &'a HostRuntime);

impl Renamed<'_> {
    /// A new file beside the one of this name, `.uninorm-` and the first number that isn't taken.
    fn created(&self, name: &str) -> io::Result<NewFile> {
        let alloc = self.0.alloc();
        let named = fs::canonicalize(self.0, name)?;
        for number in 0..NAMES {
            let path = named.with_file_name(alloc, &format!(in alloc; ".uninorm-{number}")?)?;
            let mut options = OpenOptions::new();
            options.write(true).create_new(true).mode(PRIVATE);
            match options.open(self.0, path.as_path()) {
                Err(error) if error.kind() == ErrorKind::AlreadyExists => {}
                Err(error) => return Err(error),
                Ok(file) => {
                    return Ok(NewFile {
                        file,
                        path,
                        why: ErrorKind::Other,
                    });
                }
            }
        }
        Err(io::Error::from(ErrorKind::AlreadyExists))
    }

    /// Gives a new file the owner, the group and the mode of the one of this name, and flushes it.
    fn finished(&self, file: &NewFile, name: &str) -> io::Result<()> {
        let (named, new) = (fs::metadata(self.0, name)?, file.file.metadata()?);
        if (named.uid(), named.gid()) != (new.uid(), new.gid()) {
            fchown(&file.file, Some(named.uid()), Some(named.gid()))?;
        }
        file.file.set_permissions(named.permissions())?;
        file.file.sync_all()
    }
}

impl Replacer for Renamed<'_> {
    type New = NewFile;

    // What the system has is unknown.
    ghost replaced = { λ _. None };

    ghost is_flushed = { λ _. ⊤ };

    ghost refused = { λ _ _. ⊤ };

    fn create(&mut self, name: &str) -> Result<NewFile, ErrorKind> {
        self.created(name).map_err(|error| error.kind())
    }

    fn flush(&mut self, file: &mut NewFile, name: &str) -> Result<(), ErrorKind> {
        self.finished(file, name).map_err(|error| error.kind())
    }

    fn rename(&mut self, file: &NewFile, name: &str) -> Result<(), ErrorKind> {
        fs::canonicalize(self.0, name)
            .and_then(|named| fs::rename(self.0, file.path.as_path(), named))
            .map_err(|error| error.kind())
    }

    fn why(&self, file: &NewFile) -> ErrorKind {
        file.why
    }

    fn remove(&mut self, file: &NewFile) {
        let _ = fs::remove_file(self.0, file.path.as_path());
    }
}
