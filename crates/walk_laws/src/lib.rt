// Laws of the visit by place, in the order in which a walker reads and writes: see specs/.
#![tactic(auto)]
