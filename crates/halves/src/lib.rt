// What 31 means of the value that a torrent encodes, as theorems: specs/ and proofs/ have them. There is no code here.
#![tactic(auto)]
