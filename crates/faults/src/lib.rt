#![tactic(auto)]
// When each refusal of a rule author is answered: document 01's sentences in specs/, the theorems over what a text says in proofs/. No code.
