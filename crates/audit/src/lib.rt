// No code: specs/ has the book and the claim about every list of calls, proofs/ its proof.
#![tactic(auto)]
