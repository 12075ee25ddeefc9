// General laws that the kit lacks, in proofs/: on tests, on numbers and on lists; in specs/ what they are stated with. No word of A64 is in them, and no code.
#![tactic(auto)]
