// What a torrent is written of, and which torrent it is, as definitions and theorems: specs/ and proofs/ have them. There is no code here.
#![tactic(auto)]
