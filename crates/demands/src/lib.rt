// The three demands, that of whole directives, that 6 occurs no more and that what is underlined is what was read, as theorems over what the other crates promise. There is no code here: read specs/, then proofs/.

#![tactic(auto)]
