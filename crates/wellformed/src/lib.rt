// The promises of the reader, as theorems about its definitions: proofs/ has them.
#![tactic(auto)]
