// What the user is promised, as theorems: specs/ and proofs/ have them. There is no code here.
#![tactic(auto)]
