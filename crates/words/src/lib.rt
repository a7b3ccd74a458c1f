// The words in which the promises are stated: specs/ has the definitions, and no proof. There is no code here.
#![tactic(auto)]
