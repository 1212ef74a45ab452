//! Copies of what is kept between two requests.
use crate::{Cell, CellSpec, Delay, EgressRecord, Shipped};
use proto_wire::{Mem, TryClone};
use std::alloc::Global;

impl TryClone for CellSpec {
    fn try_clone(&self, alloc: Global) -> Mem<CellSpec> {
        Ok(CellSpec {
            name: self.name.try_clone(alloc)?,
            typename: self.typename.try_clone(alloc)?,
            mode: self.mode,
            millis: self.millis,
        })
    }
}

impl TryClone for Cell {
    fn try_clone(&self, alloc: Global) -> Mem<Cell> {
        Ok(Cell {
            spec: self.spec.try_clone(alloc)?,
            value: self.value.try_clone(alloc)?,
            stamp: self.stamp,
        })
    }
}

impl TryClone for Shipped {
    fn try_clone(&self, alloc: Global) -> Mem<Shipped> {
        Ok(Shipped {
            name: self.name.try_clone(alloc)?,
            value: self.value.try_clone(alloc)?,
        })
    }
}

impl TryClone for Delay {
    fn try_clone(&self, alloc: Global) -> Mem<Delay> {
        Ok(Delay {
            sender: self.sender.try_clone(alloc)?,
            due: self.due,
            target: self.target.try_clone(alloc)?,
            token: self.token.try_clone(alloc)?,
            argument: self.argument.try_clone(alloc)?,
        })
    }
}

impl TryClone for EgressRecord {
    fn try_clone(&self, alloc: Global) -> Mem<EgressRecord> {
        Ok(EgressRecord {
            sender: self.sender.try_clone(alloc)?,
            egress: self.egress.try_clone(alloc)?,
            argument: self.argument.try_clone(alloc)?,
        })
    }
}
