#![tactic(auto)]

// What the documents say, in specs/, and what is proved of that alone, in proofs/. The crate has no function.
