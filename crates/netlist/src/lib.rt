// The netlist reader: a survey of a netlist file, or the reason for refusing it.
#![tactic(auto)]

mod header;
pub mod inner;

ghost use Rattle.std.specs.Prelude.{◌≡◌};
ghost use Rattle.model.specs.Calls.{survey_call};
ghost use Rattle.netlist.specs.Answers.{surveyed_of};

use crate::inner::load;
use model::Refusal;

// The counts of the nets, with the header's numbers and the total of the paths.
#[derive(Drop)]
pub struct NetlistSurvey {
    pub counts: [u64; 512],
    pub inputs: usize,
    pub gates: usize,
    pub outputs: usize,
    pub total: u64,
}

// The survey of a netlist, or the reason for refusing it.
pub fn survey(netlist: &[u8]) -> Result<NetlistSurvey, Refusal>
    ensures { surveyed_of result ≡ survey_call netlist.now }
{
    let mut counts = [0u64; 512];
    let mut positions = [0u16; 512];
    let legal = load(netlist, &mut counts, &mut positions)?;
    let shape = legal.shape;
    Ok(NetlistSurvey {
        counts,
        inputs: shape.inputs,
        gates: shape.nets - shape.inputs,
        outputs: shape.outputs,
        total: legal.total,
    })
}
