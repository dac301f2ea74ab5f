// The technicians' text commands: what each line is answered, from the table alone. The definitions stand in specs/, and answers of a
// table computed whole in proofs/; there is no code here.
#![tactic(auto)]
