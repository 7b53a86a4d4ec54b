//! Files that new ones take the place of.
ghost use Rattle.std.specs.Prelude.{◌≡◌, ℕ, [], List, Option, Some, IfErr, IfOk, IfSome, OnErr, OnOk};
ghost use Rattle.std.specs.declared.io.ErrorKind.{ErrorKind};
ghost use Rattle.normalizer_io.specs.Replacing.{Adds, Replacement};

use crate::device::Target;
use std::io::ErrorKind;

/// Replaces files, by their names.
pub trait Replacer {
    /// A new file, beside the one that it is to replace.
    type New: Target + Drop;

    /// The names whose files were replaced, with the bytes of the new ones, if these are known.
    ghost replaced: { Self → Option (List Replacement) };

    /// All that was written to the file is on the disk.
    ghost is_flushed: { Self.New → Type 0 };

    /// A call was refused so.
    ghost refused: { Self → ErrorKind → Type 0 };

    /// Creates an empty file beside the one of this name.
    ///
    /// # Errors
    /// Why it can't be created.
    fn create(&mut self, name: &str) -> Result<Self::New, ErrorKind>
        ensures empty { IfOk result (λ file. IfSome (replaced self.old) (λ _. Self.New.bytes_taken file ≡ Some [])) }
        ensures none { replaced self.new ≡ replaced self.old }
        ensures fault { IfErr result (refused self.new) };

    /// Flushes all that was written to a new file to the disk, with the mode of the file that it is to replace.
    ///
    /// # Errors
    /// Why it can't be flushed, or have that mode.
    fn flush(&mut self, file: &mut Self::New, name: &str) -> Result<(), ErrorKind>
        ensures flushed { OnOk result (is_flushed file.new) }
        ensures bytes { Self.New.bytes_taken file.new ≡ Self.New.bytes_taken file.old }
        ensures none { replaced self.new ≡ replaced self.old }
        ensures fault { IfErr result (refused self.new) };

    /// Gives a new file this name, which the file that had it loses.
    ///
    /// # Errors
    /// Why it can't be renamed. All names are as they were then.
    fn rename(&mut self, file: &Self::New, name: &str) -> Result<(), ErrorKind>
        requires { is_flushed file.now }
        ensures renamed { OnOk result ((bytes : List ℕ) → Self.New.bytes_taken file.now ≡ Some bytes →
            Adds (replaced self.old) (replaced self.new) (name.now, bytes)) }
        ensures kept { OnErr result (replaced self.new ≡ replaced self.old) }
        ensures fault { IfErr result (refused self.new) };

    /// Why the last write to a new file was refused.
    fn why(&self, file: &Self::New) -> ErrorKind;

    /// Removes a new file, if it can.
    fn remove(&mut self, file: &Self::New)
        ensures { replaced self.new ≡ replaced self.old };
}

/// Gives a new file the name of the one that it is to replace, once all of it is on the disk. Else it is removed.
///
/// # Errors
/// Why it can't be flushed or renamed. No file was replaced then.
pub fn replace<P: Replacer>(replacer: &mut P, mut file: P::New, name: &str) -> Result<(), ErrorKind>
    ensures replaced { OnOk result ((bytes : List ℕ) → P.New.bytes_taken file ≡ Some bytes →
        Adds (P.replaced replacer.old) (P.replaced replacer.new) (name.now, bytes)) }
    ensures kept { OnErr result (P.replaced replacer.new ≡ P.replaced replacer.old) }
    ensures fault { IfErr result (λ kind. (at : P) × P.refused at kind) }
{
    let renamed = renamed(replacer, &mut file, name);
    if renamed.is_err() {
        replacer.remove(&file);
    }
    renamed
}

/// Flushes a new file, and then renames it.
fn renamed<P: Replacer>(replacer: &mut P, file: &mut P::New, name: &str) -> Result<(), ErrorKind>
    ensures replaced { OnOk result ((bytes : List ℕ) → P.New.bytes_taken file.old ≡ Some bytes →
        Adds (P.replaced replacer.old) (P.replaced replacer.new) (name.now, bytes)) }
    ensures kept { OnErr result (P.replaced replacer.new ≡ P.replaced replacer.old) }
    ensures fault { IfErr result (λ kind. (at : P) × P.refused at kind) }
{
    replacer.flush(file, name)?;
    replacer.rename(file, name)
}
