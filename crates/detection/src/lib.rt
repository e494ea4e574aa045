// What a walk over the nets promises, whichever pins are open and whichever inputs make the edge: the runs of the detected path numbers, or Full where the
// working runs are over 1,024; and the laws on the nets' sets that each walk rests on. Only our own crates call it.
#![tactic(auto)]

pub mod inner;
