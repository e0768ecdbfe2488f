#![tactic(auto)]

// What the hash is: its definition and laws; no code. Only `hash` stands on this crate, and passes on what others may see.
