#![tactic(auto)]

// Laws on whole numbers, truth values and lists that the kit's library lacks. No code.
