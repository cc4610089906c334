// No code: the letter's three demands, of every call that meets its entry point's contract.
#![tactic(auto)]
