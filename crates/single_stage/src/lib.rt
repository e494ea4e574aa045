// The place Work of one record, on a netlist whose tables are at hand: what the record detects, by its open pins, joined to a store.
#![tactic(auto)]

pub mod inner;
