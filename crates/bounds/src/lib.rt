// Laws alone: how far one f64 operation, and the double-double operations made of it, can be from the
// exact result, and how large what they give can be. The crates above cite them.
#![tactic(auto)]
