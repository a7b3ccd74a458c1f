// What is promised of the call that writes a torrent, as theorems over what the calls that read one answer: specs/ has them. There is no
// code here.
#![tactic(auto)]
