// Demand 3 over the code. There is nothing to run here: proofs/Runs.antt says of each function of `lists` and of `run_recipe`, at offsets
// of any width, that its contract makes a call of it a run, as model's Agreement speaks of runs, and proofs/Entries.antt says of each C
// entry that what it returns and writes, where its number is below 100, are the bytes of what such a call ends in. proofs/Typed.antt says
// of each typed entry that they are its numbers, proofs/Lending.antt has how much to lend, proofs/Views.antt ListView columns,
// proofs/Hashes.antt the operations with a work area, and proofs/Large.antt says all of this of 64-bit offsets.
#![tactic(auto)]
