// Whole numbers for every crate above, with no code: identities, linear facts, bounds, sums modulo 2^64, and the conversions of std between their types.
#![tactic(auto)]
