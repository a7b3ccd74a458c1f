// What the torrent's numbers mean of the value that it encodes, as theorems: specs/ and proofs/ have them. There is no code here.
#![tactic(auto)]
