// The record that a session keeps, and its start.
#![tactic(auto)]

use stale::Columns;

pub mod afresh; // the columns, bare levels and the counts of a row, worked anew
pub mod begin; // the record at the start
pub mod yields; // the net yields of a record

// Scratch arrays, of which the first n places count. A net yield is made of its row's level, bare level and followers where it is asked for.
// A record that is not `reaching` keeps no reached counts, so that no search has to find them.
#[derive(Clone, Copy)]
pub struct Record {
    pub anchored: [u8; 1024],
    pub columns: Columns,
    pub bare: [u16; 1024],
    pub followers: [u16; 1024],
    pub reaching: bool,
    pub reached: [u16; 1024],
    pub stamp: [u16; 1024],
}
