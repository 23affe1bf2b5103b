//! A folder that keeps its files in memory, and can be told which of its calls fail.
ghost use Rattle.std.specs.Prelude.{◌≡◌, ◌/◌, ◌≤◌, ◌++◌, ◌↔◌, ◌⊎◌, None, Some, true, length, take, drop, option_map};
ghost use Rattle.std.specs.Prelude.{IfOk, OnOk, OnErr, IsErr, IsErrOf, IsTrue};
ghost use Rattle.outer_io.specs.Counts.{RisesByOne};
ghost use Rattle.outer_io.specs.Faults.{HasCause, HasWriteCause};
ghost use Rattle.outer_io.specs.Files.{bytes_of, size_of, SameBut, SameButTwo, IsRenamed, IsReadAt};
ghost use Rattle.outer_io.specs.Plan.{CallFails, CallStops, plan_from, after_call};
ghost use Rattle.outer_io.specs.MemFolder.{folder_files, folder_plan, folder_faults, folder_reads};

use crate::calls::{Calls, Fate};
use crate::copy::copy_front;
use crate::faults::{Failed, WriteFault};
use crate::file_map::FileMap;
use crate::file_name::FileName;
use crate::folder::{Folder, Pages};
use std::alloc::{AllocError, Global};

/// A folder that keeps its files in memory. It tells its files, and a test says which of its calls fail: all calls of
/// the traits share one count from 0.
#[derive(Drop)]
pub struct MemFolder {
    files: FileMap,
    calls: Calls,
    reads: u64,
}

impl MemFolder {
    /// An empty folder. Takes no memory.
    pub fn new(alloc: Global, fail: Vec<u64>) -> MemFolder
        ensures files { folder_files result ≡ (λ _. None) }
        ensures plan { folder_plan result ≡ plan_from fail.items None }
        ensures faults { folder_faults result ≡ 0 }
        ensures reads { folder_reads result ≡ 0 }
    {
        MemFolder {
            files: FileMap::new(alloc),
            calls: Calls::new(fail),
            reads: 0,
        }
    }

    /// The bytes of a file, for tests. Counts as no call.
    pub fn get(&self, n: &FileName) -> Option<&[u8]>
        ensures { option_map (λ bytes. bytes.now) result ≡ folder_files self.now n.now }
    {
        self.files.get(n)
    }

    /// Makes these bytes the file of this name, for tests. Counts as no call. After want of memory all is as it was.
    pub fn put(&mut self, n: FileName, b: Vec<u8>) -> Result<(), AllocError>
        ensures put { OnOk result (folder_files self.new n ≡ Some b.items) }
        ensures others { SameBut n (folder_files self.old) (folder_files self.new) }
        ensures memory { OnErr result (folder_files self.new ≡ folder_files self.old) }
        ensures plan { folder_plan self.new ≡ folder_plan self.old }
        ensures faults { folder_faults self.new ≡ folder_faults self.old }
        ensures reads { folder_reads self.new ≡ folder_reads self.old }
    {
        self.files.put(n, b)
    }

    /// From here on calls count from 0 again. Those whose numbers are in `fail` fail; those from the number `stop` on
    /// fail and do nothing, as if the program had ended. Takes no memory.
    pub fn plan(&mut self, fail: Vec<u64>, stop: Option<u64>)
        ensures plan { folder_plan self.new ≡ plan_from fail.items stop }
        ensures files { folder_files self.new ≡ folder_files self.old }
        ensures faults { folder_faults self.new ≡ folder_faults self.old }
        ensures reads { folder_reads self.new ≡ folder_reads self.old }
    {
        self.calls.plan(fail, stop);
    }
}

impl Pages for MemFolder {
    ghost told = { true };

    ghost files = { folder_files };

    ghost faults = { folder_faults };

    ghost reads = { folder_reads };

    /// A failing call does nothing. Takes no memory.
    fn size(&mut self, n: &FileName) -> Result<Option<u64>, Failed>
        ensures length { IsTrue true → IfOk result (λ size. size ≡ size_of (folder_files self.old n.now)) }
        ensures same { IsTrue true → folder_files self.new ≡ folder_files self.old }
        ensures reads { folder_reads self.new ≡ folder_reads self.old }
        ensures cause { HasCause (folder_faults self.old) (folder_faults self.new) result }

        ensures exact { IsErr result ↔ CallFails (folder_plan self.old) }
        ensures plan { folder_plan self.new ≡ after_call (folder_plan self.old) }
        ensures raised { OnErr result (RisesByOne (folder_faults self.old) (folder_faults self.new)) }
    {
        self.calls.count()?;
        Ok(self.files.get(n).map(|bytes| bytes.len() as u64))
    }

    /// A failing call leaves the buffer. Takes no memory.
    fn read_at(&mut self, n: &FileName, at: u64, buf: &mut [u8]) -> Result<usize, Failed>
        requires { length buf.old ≤ 4096 }
        ensures fits { IfOk result (λ count. count ≤ length buf.new) }
        ensures bytes { IsTrue true
            → IfOk result (λ count. IsReadAt (folder_files self.old n.now) at count buf.old buf.new) }
        ensures same { IsTrue true → folder_files self.new ≡ folder_files self.old }
        ensures reads { RisesByOne (folder_reads self.old) (folder_reads self.new) }
        ensures cause { HasCause (folder_faults self.old) (folder_faults self.new) result }

        ensures exact { IsErr result ↔ CallFails (folder_plan self.old) }
        ensures plan { folder_plan self.new ≡ after_call (folder_plan self.old) }
        ensures raised { OnErr result (RisesByOne (folder_faults self.old) (folder_faults self.new)) }
        ensures kept { OnErr result (buf.new ≡ buf.old) }
    {
        self.reads = self.reads.saturating_add(1);
        self.calls.count()?;
        Ok(copy_front(from_offset(self.files.get(n), at), buf))
    }
}

impl Folder for MemFolder {
    /// A call that is named as failing leaves the first half of `b` as the file; one that is stopped fails and does
    /// nothing else. After want of memory all files are as they were.
    fn write_file(&mut self, n: &FileName, b: &[u8]) -> Result<(), WriteFault>
        ensures written { IsTrue true → OnOk result (folder_files self.new n.now ≡ Some b.now) }
        ensures others { IsTrue true → SameBut n.now (folder_files self.old) (folder_files self.new) }
        ensures reads { folder_reads self.new ≡ folder_reads self.old }
        ensures cause { HasWriteCause (folder_faults self.old) (folder_faults self.new) result }

        ensures fails { CallFails (folder_plan self.old) → IsErr result }
        ensures only { IsErrOf result WriteFault.Failed → CallFails (folder_plan self.old) }
        ensures plan { folder_plan self.new ≡ after_call (folder_plan self.old) }
        ensures raised { IsErrOf result WriteFault.Failed
            → RisesByOne (folder_faults self.old) (folder_faults self.new) }
        ensures half { IsErrOf result WriteFault.Failed → (¬ CallStops (folder_plan self.old)) →
            folder_files self.new n.now ≡ Some (take (length b.now / 2) b.now) }
        ensures stopped { CallStops (folder_plan self.old) → folder_files self.new ≡ folder_files self.old }
        ensures halted { CallStops (folder_plan self.old) → IsErrOf result WriteFault.Failed }
        ensures memory { IsErrOf result WriteFault.Memory → folder_files self.new ≡ folder_files self.old }
    {
        match self.calls.next() {
            Fate::Done => {
                self.files.put_copy(n, b)?;
                Ok(())
            }
            Fate::Torn => {
                self.files.put_copy(n, &b[..b.len() / 2])?;
                Err(self.calls.fault().into())
            }
            Fate::Stopped => Err(self.calls.fault().into()),
        }
    }

    /// A call that is named as failing appends the first half of `b`; one that is stopped fails and does nothing
    /// else. After want of memory all files are as they were.
    fn append(&mut self, n: &FileName, b: &[u8]) -> Result<(), WriteFault>
        ensures written { IsTrue true → OnOk result
            (folder_files self.new n.now ≡ Some (bytes_of (folder_files self.old n.now) ++ b.now)) }
        ensures others { IsTrue true → SameBut n.now (folder_files self.old) (folder_files self.new) }
        ensures reads { folder_reads self.new ≡ folder_reads self.old }
        ensures cause { HasWriteCause (folder_faults self.old) (folder_faults self.new) result }

        ensures fails { CallFails (folder_plan self.old) → IsErr result }
        ensures only { IsErrOf result WriteFault.Failed → CallFails (folder_plan self.old) }
        ensures plan { folder_plan self.new ≡ after_call (folder_plan self.old) }
        ensures raised { IsErrOf result WriteFault.Failed
            → RisesByOne (folder_faults self.old) (folder_faults self.new) }
        ensures half { IsErrOf result WriteFault.Failed → (¬ CallStops (folder_plan self.old)) →
            folder_files self.new n.now ≡ Some
            (bytes_of (folder_files self.old n.now) ++ take (length b.now / 2) b.now) }
        ensures stopped { CallStops (folder_plan self.old) → folder_files self.new ≡ folder_files self.old }
        ensures halted { CallStops (folder_plan self.old) → IsErrOf result WriteFault.Failed }
        ensures memory { IsErrOf result WriteFault.Memory → folder_files self.new ≡ folder_files self.old }
    {
        match self.calls.next() {
            Fate::Done => {
                self.files.extend(n, b)?;
                Ok(())
            }
            Fate::Torn => {
                self.files.extend(n, &b[..b.len() / 2])?;
                Err(self.calls.fault().into())
            }
            Fate::Stopped => Err(self.calls.fault().into()),
        }
    }

    /// A failing call does nothing. A file that isn't there leaves no file of the new name either.
    /// Takes no memory.
    fn rename(&mut self, from: &FileName, to: &FileName) -> Result<(), Failed>
        ensures renamed { IsTrue true → OnOk result
            (IsRenamed from.now to.now (folder_files self.old) (folder_files self.new)) }
        ensures torn { IsTrue true → OnErr result
            ((folder_files self.new ≡ folder_files self.old)
            ⊎ IsRenamed from.now to.now (folder_files self.old) (folder_files self.new)) }
        ensures others { IsTrue true → SameButTwo from.now to.now (folder_files self.old) (folder_files self.new) }
        ensures reads { folder_reads self.new ≡ folder_reads self.old }
        ensures cause { HasCause (folder_faults self.old) (folder_faults self.new) result }

        ensures exact { IsErr result ↔ CallFails (folder_plan self.old) }
        ensures plan { folder_plan self.new ≡ after_call (folder_plan self.old) }
        ensures raised { OnErr result (RisesByOne (folder_faults self.old) (folder_faults self.new)) }
        ensures none { OnErr result (folder_files self.new ≡ folder_files self.old) }
    {
        self.calls.count()?;
        self.files.rename(from, to);
        Ok(())
    }

    /// A failing call does nothing. Takes no memory.
    fn remove(&mut self, n: &FileName) -> Result<(), Failed>
        ensures gone { IsTrue true → OnOk result (folder_files self.new n.now ≡ None) }
        ensures torn { IsTrue true → OnErr result
            ((folder_files self.new ≡ folder_files self.old) ⊎ (folder_files self.new n.now ≡ None)) }
        ensures others { IsTrue true → SameBut n.now (folder_files self.old) (folder_files self.new) }
        ensures reads { folder_reads self.new ≡ folder_reads self.old }
        ensures cause { HasCause (folder_faults self.old) (folder_faults self.new) result }

        ensures exact { IsErr result ↔ CallFails (folder_plan self.old) }
        ensures plan { folder_plan self.new ≡ after_call (folder_plan self.old) }
        ensures raised { OnErr result (RisesByOne (folder_faults self.old) (folder_faults self.new)) }
        ensures none { OnErr result (folder_files self.new ≡ folder_files self.old) }
    {
        self.calls.count()?;
        self.files.remove(n);
        Ok(())
    }
}

/// What a file has from an offset on. A file that isn't there has nothing.
fn from_offset(file: Option<&[u8]>, at: u64) -> &[u8]
    ensures { result.now ≡ drop at (bytes_of (option_map (λ bytes. bytes.now) file.entry)) }
{
    match file {
        Some(bytes) if at < bytes.len() as u64 => &bytes[at as usize..],
        _ => &[],
    }
}
