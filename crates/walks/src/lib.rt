// Laws of a value that is lent and of a type by value, in the terms of the program logic, from when functions that are lent
// something were gone through by hand. The borrow checker does that now, so that no other crate rests on them. No code.

#![tactic(auto)]
