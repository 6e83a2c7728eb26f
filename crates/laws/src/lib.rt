// What is true of tests, lists and bytes, and knows no yard: definitions in specs/, their laws in proofs/.
// There is no running code here.
#![tactic(auto)]
