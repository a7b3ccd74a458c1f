// No code: what a logged history is to a store.
#![tactic(auto)]
