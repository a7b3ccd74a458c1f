// What the contracts of the entry points say: specs/ has it. There is no code here.
#![tactic(auto)]
