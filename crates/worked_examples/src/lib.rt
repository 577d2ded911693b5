// Worked examples of what is promised of real bindings: calls, the running analysis, runs and goals: proofs/. No code.
#![tactic(auto)]
