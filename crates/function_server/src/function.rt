//! Functions.
ghost use Rattle.std.specs.Prelude.{◌≡◌, ℕ, List, IfOk};

use proto_wire::{List, Mem};
use request_reply::{InvocationBatchRequest, InvocationResponse};
use std::alloc::Global;
use typed_values::CellSpec;

/// A function: the cells that it declares, and what it answers to a batch. Its answer is one function of the batch.
pub trait Function {
    ghost use Rattle.typed_values.specs.declared.cell.CellSpec.{CellSpec};
    ghost use Rattle.request_reply.specs.declared.request.InvocationBatchRequest.{InvocationBatchRequest};
    ghost use Rattle.request_reply.specs.declared.answer.InvocationResponse.{InvocationResponse};

    /// The cells that it declares, in its order.
    ghost declared: { Self → List CellSpec };

    /// What it answers to a batch that has them.
    ghost served: { Self → InvocationBatchRequest → InvocationResponse };

    /// The cells that it declares.
    fn states(&self, alloc: Global) -> Mem<List<CellSpec>>
        ensures { IfOk result (λ states. states ≡ declared self.now) };

    /// Its answer to a batch that has all of them.
    fn answer(&self, alloc: Global, batch: &InvocationBatchRequest) -> Mem<InvocationResponse>
        ensures { IfOk result (λ response. response ≡ served self.now batch.now) };
}
