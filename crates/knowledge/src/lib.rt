// What the promises rest on: specs/ has the proofs, by node number and then by layer and index. There is no code here.
#![tactic(auto)]
