// A viewer's places, for our own crates only. What he is answered stands in specs/.
#![tactic(auto)]

pub mod inner;
