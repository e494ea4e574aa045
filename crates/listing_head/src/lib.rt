// What a listing begins with: the line of a refused netlist or class, alone, or the number of paths.
#![tactic(auto)]

pub mod inner;
