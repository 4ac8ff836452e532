// The lent bytes of a record: cells, header, rows and letters, read and written.
//
// The layout is specs/Layout.antt. These functions rely on the sizes that their `requires` name;
// the calls offered outside test a store before they use one.
#![tactic(auto)]

pub mod bytes;
pub mod cells;
pub mod header;
pub mod lengths;
pub mod letters;
pub mod rows;
