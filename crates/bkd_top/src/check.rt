//! The commands `check` and `info`: how large an index the listed files hold, or which damage comes first.

ghost use Rattle.std.specs.Prelude.{◌≡◌, IsTrue};
ghost use Rattle.outer_io.specs.Faults.{Rose};
ghost use Rattle.bkd_top.specs.Calls.{TellsDamage};
ghost use Rattle.bkd_top.specs.Checking.{Checks, Informs};
ghost use Rattle.run_status.specs.Ends.{DoesNothing};

use folder_check::{check, info};
use outer_io::{Folder, Sink};
use run_status::{Status, send, status_of, stopped};
use std::alloc::Global;

/// The command `check`: reads every page of the files that the folder's commit lists, and says how large the index is
/// that they hold, or ends with the first damage. No file changes, whatever the status, and the input is not read.
pub fn run_check<F: Folder, K: Sink>(alloc: Global, folder: &mut F, out: &mut K) -> Status
    ensures done { DoesNothing result → ⊥ }
    ensures checks { IsTrue F.told
        → Checks (IsTrue K.told) (F.files folder.old) (F.files folder.new) (K.written out.old) (K.written out.new)
        (F.reads folder.old) (F.reads folder.new) result }
    ensures damage { TellsDamage (IsTrue F.told) (F.files folder.old) (F.files folder.new) result }
    ensures folder_fault { result ≡ Status.FolderFault → Rose (F.faults folder.old) (F.faults folder.new) }
    ensures sink_fault { result ≡ Status.SinkFault → Rose (K.faults out.old) (K.faults out.new) }
{
    let mut text = Vec::new(alloc);
    match check(alloc, folder, &mut text) {
        Ok(()) => status_of(send(out, text.as_slice(), 0)),
        Err(fault) => status_of(stopped(fault)),
    }
}

/// The command `info`: says how large the index is that the folder's commit lists, by its heads and live bits, or ends
/// with the first damage of these. No leaf is read. No file changes, whatever the status, and the input is not read.
pub fn run_info<F: Folder, K: Sink>(alloc: Global, folder: &mut F, out: &mut K) -> Status
    ensures done { DoesNothing result → ⊥ }
    ensures informs { IsTrue F.told
        → Informs (IsTrue K.told) (F.files folder.old) (F.files folder.new) (K.written out.old) (K.written out.new)
        (F.reads folder.old) (F.reads folder.new) result }
    ensures damage { TellsDamage (IsTrue F.told) (F.files folder.old) (F.files folder.new) result }
    ensures folder_fault { result ≡ Status.FolderFault → Rose (F.faults folder.old) (F.faults folder.new) }
    ensures sink_fault { result ≡ Status.SinkFault → Rose (K.faults out.old) (K.faults out.new) }
{
    let mut text = Vec::new(alloc);
    match info(alloc, folder, &mut text) {
        Ok(()) => status_of(send(out, text.as_slice(), 0)),
        Err(fault) => status_of(stopped(fault)),
    }
}
