// Trials with known outcome: those that document 01 marks stand in specs/Marked.antt as one table under one proved statement.

#![tactic(auto)]
