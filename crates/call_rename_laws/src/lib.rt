// What the renaming call writes is well-formed, is the input with its labels renamed, and stays under a second call: specifications and proofs alone.
#![tactic(auto)]
