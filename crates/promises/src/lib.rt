#![tactic(auto)]

// No code: the client's demands as theorems over the contracts, one file a demand. specs/ has what they speak of, proofs/ the theorems.
