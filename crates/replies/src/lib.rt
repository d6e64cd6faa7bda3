// Replies to packets that neither write nor move the machine.
#![tactic(auto)]

pub mod plain; // OK and E01
pub mod queries; // q, Q: what gdb asks about the target
pub mod inserts; // Z, z: breakpoints and watches
pub mod stops; // the reply when the machine has stopped
