//! Where files are read and written.
ghost use Rattle.std.specs.Prelude.{◌≡◌, ℕ, ◌≤◌, Bool, List, Option, Some, None, ◌++◌, ◌⊎◌, length, IsTrue, IfOk, OnOk};
ghost use Rattle.std.specs.Prelude.{OnErr};
ghost use Rattle.outer_io.specs.Counts.{RisesByOne};
ghost use Rattle.outer_io.specs.Faults.{HasCause, HasWriteCause};
ghost use Rattle.outer_io.specs.Files.{bytes_of, size_of, SameBut, SameButTwo, IsRenamed, IsReadAt};
ghost use Rattle.outer_io.specs.declared.file_name.FileName.{FileName};

use crate::faults::{Failed, WriteFault};
use crate::file_name::FileName;

/// A folder that is read. No call here changes a file.
pub trait Pages {
    /// Whether the type tells its files. What is said of files holds where it does.
    ghost told: { Bool };

    /// The bytes under each name, and None where there is no such file.
    ghost files: { Self → FileName → Option (List ℕ) };

    /// How many calls failed, up to the last value of u64.
    ghost faults: { Self → ℕ };

    /// How many times `read_at` was called, up to the last value of u64.
    ghost reads: { Self → ℕ };

    /// The length of a file in bytes, and None where there is no such file.
    fn size(&mut self, n: &FileName) -> Result<Option<u64>, Failed>
        ensures length { IsTrue told → IfOk result (λ size. size ≡ size_of (files self.old n.now)) }
        ensures same { IsTrue told → files self.new ≡ files self.old }
        ensures reads { reads self.new ≡ reads self.old }
        ensures cause { HasCause (faults self.old) (faults self.new) result };

    /// Reads a file from the byte `at` on and answers how many bytes: as many as the file has from there, up to the
    /// buffer's length, never fewer. A file that isn't there has none. The buffer behind them stays as it was.
    fn read_at(&mut self, n: &FileName, at: u64, buf: &mut [u8]) -> Result<usize, Failed>
        requires { length buf.old ≤ 4096 }
        ensures fits { IfOk result (λ count. count ≤ length buf.new) }
        ensures bytes { IsTrue told → IfOk result (λ count. IsReadAt (files self.old n.now) at count buf.old buf.new) }
        ensures same { IsTrue told → files self.new ≡ files self.old }
        ensures reads { RisesByOne (reads self.old) (reads self.new) }
        ensures cause { HasCause (faults self.old) (faults self.new) result };
}

/// A folder that is read and written. Each call leaves all files that it doesn't name as they were, also where it
/// fails.
pub trait Folder: Pages {
    /// Makes `b` the whole of a file, which need not be there. After an Err the file holds any bytes or isn't there.
    fn write_file(&mut self, n: &FileName, b: &[u8]) -> Result<(), WriteFault>
        ensures written { IsTrue Self.told → OnOk result (Self.files self.new n.now ≡ Some b.now) }
        ensures others { IsTrue Self.told → SameBut n.now (Self.files self.old) (Self.files self.new) }
        ensures reads { Self.reads self.new ≡ Self.reads self.old }
        ensures cause { HasWriteCause (Self.faults self.old) (Self.faults self.new) result };

    /// Puts `b` behind the bytes of a file, which is made where it isn't there. After an Err the file holds any bytes
    /// or isn't there.
    fn append(&mut self, n: &FileName, b: &[u8]) -> Result<(), WriteFault>
        ensures written { IsTrue Self.told → OnOk result
            (Self.files self.new n.now ≡ Some (bytes_of (Self.files self.old n.now) ++ b.now)) }
        ensures others { IsTrue Self.told → SameBut n.now (Self.files self.old) (Self.files self.new) }
        ensures reads { Self.reads self.new ≡ Self.reads self.old }
        ensures cause { HasWriteCause (Self.faults self.old) (Self.faults self.new) result };

    /// Gives the file `from` the name `to`, in place of a file `to` where there is one. A file renamed to itself
    /// stays as it is. After an Err this is done whole or not at all.
    fn rename(&mut self, from: &FileName, to: &FileName) -> Result<(), Failed>
        ensures renamed { IsTrue Self.told → OnOk result
            (IsRenamed from.now to.now (Self.files self.old) (Self.files self.new)) }
        ensures torn { IsTrue Self.told → OnErr result
            ((Self.files self.new ≡ Self.files self.old)
            ⊎ IsRenamed from.now to.now (Self.files self.old) (Self.files self.new)) }
        ensures others { IsTrue Self.told → SameButTwo from.now to.now (Self.files self.old) (Self.files self.new) }
        ensures reads { Self.reads self.new ≡ Self.reads self.old }
        ensures cause { HasCause (Self.faults self.old) (Self.faults self.new) result };

    /// Takes a file away. One that isn't there is no fault. After an Err the file is there unchanged or gone.
    fn remove(&mut self, n: &FileName) -> Result<(), Failed>
        ensures gone { IsTrue Self.told → OnOk result (Self.files self.new n.now ≡ None) }
        ensures torn { IsTrue Self.told → OnErr result
            ((Self.files self.new ≡ Self.files self.old) ⊎ (Self.files self.new n.now ≡ None)) }
        ensures others { IsTrue Self.told → SameBut n.now (Self.files self.old) (Self.files self.new) }
        ensures reads { Self.reads self.new ≡ Self.reads self.old }
        ensures cause { HasCause (Self.faults self.old) (Self.faults self.new) result };
}
