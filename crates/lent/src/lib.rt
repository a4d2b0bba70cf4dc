// Parts of lent slices, and bytes written into a lent buffer: definitions and laws, no code.
#![tactic(auto)]
