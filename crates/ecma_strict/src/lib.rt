// The findings of names, literals, expressions and statements are where the rules of ECMA-262 are broken: theorems and laws only.
#![tactic(auto)]
