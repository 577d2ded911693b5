// The definitions of ternary set-sharing tables and the theorems about them: specs/ and proofs/. No code.
#![tactic(auto)]
