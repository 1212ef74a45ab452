//! Why a call on cells is refused.
ghost use Rattle.std.specs.Prelude.{◌≡◌};
ghost use Rattle.state_cells.specs.declared.fault.CellFault.{CellFault};

use proto_wire::OutOfMemory;

/// Why a call on the cells of an address is refused.
#[derive(Clone, Copy, Debug, PartialEq, Eq, Drop)]
pub enum CellFault {
    /// 1: no cell has the name.
    UnknownName,
    /// 2: the cell of the name holds values of another type.
    TypeDiffers,
    /// 3: the name is new, and the address has as many cells as it may have.
    TooMany,
    /// 4: the value has more bytes than a cell may hold.
    TooLarge,
    /// 5: the call could not get the memory that it asked for.
    OutOfMemory,
}

impl From<OutOfMemory> for CellFault {
    ghost use Rattle.state_cells.specs.declared.fault.CellFault.TheVariants.{OutOfMemory as Refused};

    ghost from_gives = { λ _ e. e ≡ Refused };

    fn from(_: OutOfMemory) -> CellFault {
        CellFault::OutOfMemory
    }
}
