// Laws of the marks of a sheet; no code.
#![tactic(auto)]
