// What the calls for C promise of groups, of every byte and of real bindings: specs/ and proofs/. No code.
#![tactic(auto)]
