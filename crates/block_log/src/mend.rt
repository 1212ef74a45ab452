//! Files that are too short for a block.
ghost use Rattle.std.specs.Prelude.{◌≡◌, ◌<◌, ◌∷◌, List, ℕ, true, length, IfOk, OnOk};
ghost use Rattle.sf_outside.specs.Told.{HasCause};
ghost use Rattle.sf_disk.specs.Images.{Follows};
ghost use Rattle.sf_disk.specs.Moments.{Since, Becomes, WhereTold, InFile};
ghost use Rattle.block_log.specs.Blocks.{Keeps};
ghost use Rattle.block_log.specs.Mending.{Mended, IsShort};

use crate::frame::CLOSED;
use sf_disk::Disk;
use sf_outside::Fault;

/// Writes the closed gate of a log without blocks, where it does not stand.
pub(crate) fn mend<D: Disk>(disk: &mut D, file: u32, len: u64) -> Result<(), Fault>
    requires short { WhereTold (D.moments disk.old) (λ now. IsShort len (now file)) }
    requires few { len < 10 }
    ensures meanwhile { Since (D.moments disk.old) (D.moments disk.new) (InFile file (Follows Keeps)) }
    ensures mended { OnOk result (Becomes (D.moments disk.old) (D.moments disk.new) (InFile file Mended)) }
    ensures cause { HasCause (D.faults disk.old) (D.faults disk.new) result }
{
    if is_closed(disk, file, len)? {
        return Ok(());
    }
    disk.write_at(file, 0, &[CLOSED])?;
    disk.sync(file)?;
    Ok(())
}

// Whether the first gate stands, and is closed.
fn is_closed<D: Disk>(disk: &mut D, file: u32, len: u64) -> Result<bool, Fault>
    requires { WhereTold (D.moments disk.old) (λ now. IsShort len (now file)) }
    ensures closed { IfOk result (λ closed. closed ≡ true → WhereTold (D.moments disk.old) (λ now. (tail : List ℕ) × ((now file).seen ≡ 0 ∷ tail))) }
    ensures same { D.moments disk.new ≡ D.moments disk.old }
    ensures cause { HasCause (D.faults disk.old) (D.faults disk.new) result }
{
    if len == 0 {
        return Ok(false);
    }
    let mut gate = [0; 1];
    disk.read(file, 0, &mut gate)?;
    Ok(gate[0] == CLOSED)
}
