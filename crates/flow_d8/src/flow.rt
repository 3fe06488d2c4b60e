//! Reads the flows of samples in an array.
ghost use Rattle.std.specs.Prelude.{◌≡◌, ◌↔◌, ◌<◌, ℕ, IsTrue, length, slice_index_or};
ghost use Rattle.water.specs.declared.flow.Flow.TheVariants.{Unknown};
ghost use Rattle.flow_d8.specs.Flows.{IsOfFlat, IsBeside, IsTold};

use crate::flow_byte::FlowByte;
use water::Flow;

/// The flow of the sample.
#[inline(always)]
pub(crate) fn flow_at(flows: &[FlowByte], k: usize) -> Flow
    requires { k < length flows.now }
    ensures { result ≡ slice_index_or flows.now k Unknown }
{
    flows[k].flow()
}

/// Whether the sample's flow is unknown.
#[inline(always)]
pub(crate) fn is_unknown(flows: &[FlowByte], k: usize) -> bool
    requires { k < length flows.now }
    ensures { IsTrue result ↔ (slice_index_or flows.now k Unknown ≡ Unknown) }
{
    matches!(flows[k].flow(), Flow::Unknown)
}

/// Whether the sample lies inside a flat.
#[inline(always)]
pub(crate) fn is_of_flat(flows: &[FlowByte], k: usize) -> bool
    requires { k < length flows.now }
    ensures { IsTrue result ↔ IsOfFlat (slice_index_or flows.now k Unknown) }
{
    flow_of_flat(flows[k].flow())
}

fn flow_of_flat(flow: Flow) -> bool
    ensures { IsTrue result ↔ IsOfFlat flow }
{
    matches!(flow, Flow::Beside(_) | Flow::Flat | Flow::FlatTo(_))
}

/// Whether the point lies inside a flat and its direction is known.
pub(crate) fn is_told(flow: Flow) -> bool
    ensures { IsTrue result ↔ IsTold flow }
{
    matches!(flow, Flow::Beside(_) | Flow::FlatTo(_))
}

/// Whether the sample lies inside a flat, next to an exit of the flat.
#[inline(always)]
pub(crate) fn is_beside(flows: &[FlowByte], k: usize) -> bool
    requires { k < length flows.now }
    ensures { IsTrue result ↔ IsBeside (slice_index_or flows.now k Unknown) }
{
    flow_beside(flows[k].flow())
}

fn flow_beside(flow: Flow) -> bool
    ensures { IsTrue result ↔ IsBeside flow }
{
    matches!(flow, Flow::Beside(_))
}
