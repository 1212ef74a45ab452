//! The cells that keep a function's state.
ghost use Rattle.std.specs.Prelude.{◌≡◌, Some, IfOk};
ghost use Rattle.typed_values.specs.Cells.{is_expired, emptied, written, invoked, shipped};

use crate::{CellSpec, Expiry, TypedValue};
use proto_wire::{Mem, Text, TryClone};
use std::alloc::Global;

/// A registered cell.
#[derive(PartialEq, Eq, Drop)]
pub struct Cell {
    pub spec: CellSpec,
    pub value: Option<TypedValue>,
    /// The moment from which the value's time counts, in milliseconds; 0 without a value.
    pub stamp: u64,
}

/// A cell as a request carries it.
#[derive(PartialEq, Eq, Drop)]
pub struct Shipped {
    pub name: Text,
    /// None where the cell has no value, or its value has expired.
    pub value: Option<TypedValue>,
}

impl Cell {
    /// Whether a value of the cell is gone at a moment: where it expires, so long after its stamp.
    pub fn is_expired(&self, moment: u64) -> bool
        ensures { result ≡ is_expired moment self.now }
    {
        match self.spec.mode {
            Expiry::Never => false,
            Expiry::AfterWrite | Expiry::AfterInvoke => {
                self.stamp <= moment && moment - self.stamp >= self.spec.millis
            }
        }
    }

    /// Writes a value at a moment.
    pub fn write(&mut self, value: TypedValue, moment: u64)
        ensures { self.new ≡ written value moment self.old }
    {
        self.value = Some(value);
        self.stamp = moment;
    }

    /// Drops the value.
    pub fn clear(&mut self)
        ensures { self.new ≡ emptied self.old }
    {
        self.value = None;
        self.stamp = 0;
    }

    /// What an invocation at a moment does: an expired value is dropped, and with `AfterInvoke` the time of a value that
    /// stays counts from this moment.
    pub fn invoke(&mut self, moment: u64)
        ensures { self.new ≡ invoked moment self.old }
    {
        if self.is_expired(moment) {
            self.clear();
            return;
        }
        match (self.spec.mode, &self.value) {
            (Expiry::AfterInvoke, Some(_)) => self.stamp = moment,
            (Expiry::AfterInvoke, None) | (Expiry::AfterWrite, _) | (Expiry::Never, _) => {}
        }
    }

    /// What a request at a moment carries of the cell.
    pub fn ship(&self, alloc: Global, moment: u64) -> Mem<Shipped>
        ensures { IfOk result (λ copy. copy ≡ shipped moment self.now) }
    {
        let value = if self.is_expired(moment) {
            None
        } else {
            self.value.try_clone(alloc)?
        };
        Ok(Shipped {
            name: self.spec.name.try_clone(alloc)?,
            value,
        })
    }
}
