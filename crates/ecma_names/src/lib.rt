// Early errors of names and of directives, and the grammar parameters [Yield] and [Await], as ECMA-262 states them: definitions and laws only.
#![tactic(auto)]
