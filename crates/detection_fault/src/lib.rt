// Whether one test detects one fault, by its open pins along the fault's path. There is no store, and no limit on runs.
#![tactic(auto)]

mod walking;

ghost use Rattle.std.specs.Prelude.{◌≡◌};
ghost use Rattle.model.specs.Base.{value};
ghost use Rattle.model.specs.Netlist.{Netlist};
ghost use Rattle.netlist.specs.Tables.{CircuitTables};
ghost use Rattle.detection_fault.specs.Detection.{detection_on, detection_call};
ghost use Rattle.detection_fault.specs.OpenPaths.{Asked};
ghost use Rattle.model.specs.Returned.{answer_of};

use crate::walking::detects_path;
use model::{Refusal, known_class};
use netlist::inner::{Shape, load};
use path_faults::{FaultNo, edge_of, path_of};
use record_test::inner::check_record;

// A record and a fault, once the netlist's tables are made.
fn detects_on(
    netlist: &[u8],
    positions: &[u16; 512],
    counts: &[u64; 512],
    shape: Shape,
    total: u64,
    test: &[u8],
    class: u32,
    fault: FaultNo,
) -> Result<bool, Refusal>
    requires { Asked netlist.now positions.now counts.now shape total }
    ensures { (N : Netlist) → CircuitTables N netlist.now positions.now counts.now shape
        → answer_of result ≡ detection_on N class test.now fault.0 }
{
    if !known_class(class) {
        return Err(Refusal::UnknownClass);
    }
    let path = path_of(fault);
    let number = path.0;
    check_record(test, shape.inputs)?;
    if number < 1 {
        return Err(Refusal::NoSuchNumber);
    }
    if total < number {
        return Err(Refusal::NoSuchNumber);
    }
    let edge = edge_of(fault);
    if detects_path(netlist, positions, counts, shape, test, class, number, edge) {
        Ok(true)
    } else {
        Ok(false)
    }
}

// Whether a test detects a fault, judged in class 1 (non-robust) or 2 (robust).
pub fn test_detects(
    netlist: &[u8],
    test: &[u8],
    test_class: u32,
    fault: FaultNo,
) -> Result<bool, Refusal>
    ensures { answer_of result ≡ detection_call netlist.now test_class test.now fault.0 }
{
    let mut counts = [0u64; 512];
    let mut positions = [0u16; 512];
    let legal = load(netlist, &mut counts, &mut positions)?;
    detects_on(
        netlist,
        &positions,
        &counts,
        legal.shape,
        legal.total,
        test,
        test_class,
        fault,
    )
}
