// What is promised of the calls that read a torrent, as theorems: specs/ has them. There is no code here.
#![tactic(auto)]
