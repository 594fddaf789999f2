// What the calls test before their own work, by the rows of the refusal table: 1 to 3 (`open`), 4 and 5 (`legal`), 4 to 6
// (`table`), 8 and 9 (`answer`).
#![tactic(auto)]

pub mod answer;
pub mod legal;
pub mod open;
pub mod table;
