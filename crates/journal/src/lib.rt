// The book over many days, and demand 3 proved on it: specifications and proofs only.
#![tactic(auto)]
