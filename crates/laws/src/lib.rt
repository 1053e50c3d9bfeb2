#![tactic(auto)]

// No code: definitions that several chapters share, and laws on lists and tables that the kit's libraries lack.
