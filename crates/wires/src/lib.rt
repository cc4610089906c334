// No code: that the films of all accepted sheets obey the wire rules is stated and proved in specs/ and proofs/.
#![tactic(auto)]
