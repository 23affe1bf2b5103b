//! The bytes of a cell.

ghost use Rattle.std.specs.Prelude.{◌≡◌, ◌<◌, ◌+◌, ◌*◌, ◌++◌, length};
ghost use Rattle.std.specs.Prelude.{OnOk};
ghost use Rattle.std.specs.List.{flat_map};
ghost use Rattle.point_codec.specs.Keys.{key};
ghost use Rattle.point_codec.specs.Seen.{region_of};
ghost use Rattle.inner_pack.specs.Bodies.{cell_bytes};

use byte_cursor::{Memory, put_slice};
use point_codec::{Cell, sortable};

/// Appends the keys of a cell's least coordinates, then those of its greatest.
pub(crate) fn put_cell<const D: usize>(out: &mut Vec<u8>, cell: &Cell<D>) -> Result<(), Memory>
    ensures spelled { OnOk result (out.new.items ≡ out.old.items ++ cell_bytes (region_of cell.now)) }
    ensures room { OnOk result (length out.new.items ≡ length out.old.items + 8 * D) }
{
    put_keys(out, &cell.lo.c)?;
    put_keys(out, &cell.hi.c)?;
    Ok(())
}

/// Appends the keys of some coordinates.
fn put_keys(out: &mut Vec<u8>, coordinates: &[i32]) -> Result<(), Memory>
    ensures spelled { OnOk result (out.new.items ≡ out.old.items ++ flat_map key coordinates.now) }
    ensures room { OnOk result (length out.new.items ≡ length out.old.items + 4 * length coordinates.now) }
{
    for x in coordinates {
        put_slice(out, &sortable(*x))?;
    }
    Ok(())
}
