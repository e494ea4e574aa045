// Each caller proves what a function requires.
pub mod gates;
pub mod layout;
pub mod lists;
pub mod masks;
pub mod robust;
pub mod table;
pub mod words;
