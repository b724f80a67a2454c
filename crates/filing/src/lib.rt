// What a solver reads of a drawing besides its runs, and the answer that it writes into a record.
#![tactic(auto)]

mod marks;
mod records;

pub use marks::terminals;
pub use records::file;
