// No code: what is written is read back as the same item, and what is read is written again as the same bytes, with each number in its shortest form.
#![tactic(auto)]
