// Numbers of paths and of faults: they count unlike things, and only these functions lead from one to the other.
#![tactic(auto)]

ghost use Rattle.std.specs.Prelude.{◌≡◌};
ghost use Rattle.model.specs.Path.{path_of_fault, edge_of_fault};
ghost use Rattle.path_faults.specs.Answers.{model_edge, fault_call_of, fault_answer};

use model::{MAX_COUNT, Refusal};

// The number of a path, from 1.
#[derive(Clone, Copy)]
pub struct PathNo(pub u64);

// The number of a fault, from 1.
#[derive(Clone, Copy)]
pub struct FaultNo(pub u64);

// The edge of a fault, at its path's input.
#[derive(Clone, Copy)]
pub enum Edge {
    Rising,
    Falling,
}

// The fault of a path and an edge: 2i - 1 or 2i. No netlist has a path number that is not 1 to 2^62.
pub fn fault_of(path: PathNo, edge: Edge) -> Result<FaultNo, Refusal>
    ensures { fault_answer result ≡ fault_call_of (model_edge edge) path.0 }
{
    let i = path.0;
    if i < 1 {
        return Err(Refusal::NoSuchNumber);
    }
    if MAX_COUNT < i {
        return Err(Refusal::NoSuchNumber);
    }
    match edge {
        Edge::Rising => Ok(FaultNo(2 * i - 1)),
        Edge::Falling => Ok(FaultNo(2 * i)),
    }
}

// The path of a fault.
pub fn path_of(fault: FaultNo) -> PathNo
    ensures { result.0 ≡ path_of_fault fault.0 }
{
    let n = fault.0;
    PathNo(n / 2 + n % 2)
}

// The edge of a fault.
pub fn edge_of(fault: FaultNo) -> Edge
    ensures { model_edge result ≡ edge_of_fault fault.0 }
{
    let n = fault.0;
    if n % 2 == 1 {
        Edge::Rising
    } else {
        Edge::Falling
    }
}
