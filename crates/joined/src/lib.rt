// What is read by positions is what the value says that a torrent encodes, as theorems: specs/ has them. There is no code here.
#![tactic(auto)]
