// What the text of a rig means: definitions in specs/, theorems in proofs/, which the reader of texts promises.
#![tactic(auto)]

use drawing::Refusal;

// What is wrong with a text: the refusal and the number of the line, from 1; 0 where the whole text is refused,
// as the line that tells a fault prints it: no Option, since the number is what is told.
#[derive(Clone, Copy, PartialEq, Eq)]
pub struct Fault {
    pub refusal: Refusal,
    pub line: u16,
}
