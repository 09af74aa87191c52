#![tactic(auto)]
// The theory that every crate cites: definitions in specs/, their laws in proofs/. No code.
